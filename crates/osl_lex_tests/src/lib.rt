//! Rows of the lexical definitions, computed by the definitions themselves: numbers and what they are worth, blanks,
//! words, escapes, comments, strings and marks. What is expected was worked out outside the program.
#![tactic(auto)]
