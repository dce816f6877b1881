//! The lexer: from the bytes of a source to its tokens, or to its first fault.
//!
//! The model is that of `osl_tree`: `Tokens` says what the tokens of a source are, and `FirstBad`
//! which fault comes first and where. `specs/Pieces.antt` says what a step of the lexer finds;
//! `specs/Scan.antt`, `specs/Signs.antt` and `specs/Value.antt` compute what its parts do on lists.
#![tactic(auto)]

mod bytes;
mod error;
pub mod laws;
mod lexer;
mod mark;
mod number;
mod piece;
mod scan;

pub use error::LexError;
pub use lexer::lex;
