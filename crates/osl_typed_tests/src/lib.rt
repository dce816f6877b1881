//! Rows of what is measured of a source and of its typed tree, computed by the definitions themselves.
#![tactic(auto)]
