//! Strings, places and matrices: what the operations on them compute.
//!
//! A string is seen as the list of its bytes, a matrix as its 16 floats by rows, a triple as its 3
//! floats. Each call equals the definition of its name in `osl_value`, in `specs/Strings.antt` or
//! `specs/Geometry.antt`, which the table of operations gives to `apply`.
#![tactic(auto)]

mod matrices;
mod strings;

pub use matrices::{mat_mul, place, transform, transpose};
pub use strings::{concat, endswith, getchar, startswith, strlen, substr};
