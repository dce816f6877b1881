//! Rows of code's meaning and of its validity, computed by the definitions themselves.
#![tactic(auto)]
