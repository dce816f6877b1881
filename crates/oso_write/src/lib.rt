//! The one canonical text of a shader's code.
//!
//! `specs/Lines.antt` says which lines a shader has, over the words of `osl_valuetext` and of
//! `specs/Names.antt`, and `specs/Canon.antt` how they are put together.
#![tactic(auto)]

mod line;
mod names;
mod writer;

pub use names::{class_name, kind_name};
pub use writer::write;
