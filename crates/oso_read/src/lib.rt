//! The text of code, read to the shader that it spells.
//!
//! The model is `Spelt`: which bytes spell a shader, by the lines that are written of it (`specs/Spelt.antt`). Beside it
//! `reading` goes from line to line, to the shader or to the first fault (`specs/Reading.antt`). `laws` says what holds of
//! both.
#![tactic(auto)]

mod body;
mod error;
mod fault;
mod hints;
mod jumps;
pub mod laws;
mod lines;
mod name_table;
mod op_line;
mod owner;
mod parts;
mod reader;
mod strings;
mod symbol_line;
mod table;
mod values;
mod whole;

pub use error::{OsoError, OsoKind};
pub use whole::read;
