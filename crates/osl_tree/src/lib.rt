//! Tokens and syntax trees of the shading language, and what they have to do with bytes and with
//! each other.
//!
//! The model is three relations: `Tokens` and `FirstBad` say what the tokens of a source are and
//! where it has none (`specs/Lexical.antt`, `specs/Numbers.antt`), and `Spells` says which tokens a
//! tree spells. That a list of tokens has at most one tree is a law, in `laws`.
#![tactic(auto)]

pub mod expr;
pub mod laws;
mod role;
pub mod stmt;
pub mod terminal;
pub mod token;
pub mod tree;

pub use token::{LexKind, Punct, Token, TokenKind};
