//! The lines of a text: their numbers, their words and their comments, as the texts of code, of groups, of points and of
//! edits have them.
//!
//! `specs/Lines.antt` says which lines of a text mean something and what their words are, `specs/Comment.antt` what a comment
//! is.
#![tactic(auto)]

mod comment;
mod lines;

pub use comment::{Comments, uncommented};
pub use lines::{Lines, first_line};
