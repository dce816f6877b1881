//! Rows of the table of operations: what each operation gives for chosen arguments, computed by the definition itself.
//! What is expected was worked out by whole-number arithmetic outside the program.
#![tactic(auto)]
