//! Operations on numbers: ints, floats and triples component by component, and geometry.
//!
//! A float is seen as its units, a float or a triple as the list of its floats. Each call equals the
//! line of its operation in the table of `osl_value`: `ints` what the line says of ints, `one`, `two`
//! and `three` what it says of floats, for each component. `geometric` is defined in
//! `specs/Operations.antt` by the definitions of `osl_value`'s `specs/Geometry.antt`.
#![tactic(auto)]

mod floats;
mod geometry;
mod integers;

pub use floats::{one, three, two};
pub use geometry::geometric;
pub use integers::ints;
