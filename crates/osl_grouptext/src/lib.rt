//! The text of a group: its statements, read and written.
//!
//! `specs/Pieces.antt` says which words a text has, `specs/Statements.antt` which statement words are, both ways, and
//! `specs/Reading.antt` what a text means: its statements, or the first that is not in the grammar.
#![tactic(auto)]

mod error;
pub mod laws;
mod pieces;
mod read;
mod statement;
mod text;
mod write;

pub use error::GroupTextError;
pub use read::read_group;
pub use text::GroupText;
pub use write::write_group;
