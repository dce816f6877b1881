//! Rows of the demonstration's files, computed by their definition.
#![tactic(auto)]
