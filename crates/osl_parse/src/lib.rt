//! The parser: the one tree that spells the tokens of a source.
//!
//! The model is the relation `Spells` of `osl_tree`, and beside it the reading functions there: each
//! rule of the parser answers what the reading function of its name reads (`specs/Reads.antt`).
#![tactic(auto)]

mod declaration;
mod error;
mod escape;
mod expr;
mod file;
mod list;
mod parser;
mod stmt;
mod tokens;

pub use error::SyntaxError;
pub use parser::parse;
