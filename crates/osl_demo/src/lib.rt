//! The demonstration's generator: two shaders, a group, points and edits of a size, with drawn numbers, and the number
//! that stands for a text.
//!
//! The files are seen as a list of names and texts. `specs/Draws.antt` defines the draws, `specs/Texts.antt` the lines
//! that are made with them, `specs/Files.antt` the five files, and `specs/Fold.antt` the number of a text.
#![tactic(auto)]

mod draws;
mod files;
pub mod laws;
mod lines;
mod number;
mod texts;

pub use files::{DemoFiles, demo_files};
pub use number::fold;
