//! Rows of the words of the command line: which job they ask for, computed by the definition itself.
#![tactic(auto)]
