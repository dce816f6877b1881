//! What the meaning of a shader's source and the meaning of its code share at the border of a layer.
//!
//! The global variables are here with their names and types, and in `specs/` what a layer is given and what it gives
//! (`Layer`), and what the globals are at a point (`Globals`).
#![tactic(auto)]

pub mod global;
pub mod laws;

pub use global::GlobalName;
