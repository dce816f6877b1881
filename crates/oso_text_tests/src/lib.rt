//! Rows of the text of code: which code a text spells, or the kind and the line of its first fault, computed by the definition itself.
#![tactic(auto)]
