//! Closures as nodes in an arena that the caller lends.
//!
//! A closure is a sum of weighted primitives (OSL specification, "Closures" and "Material
//! closures"). A node is seen as its list of parts: a primitive is one part, addition appends and
//! keeps the first 256, multiplication multiplies each weight. A node is built in constant time and
//! shares what lies below it; `flatten` gives the list.
//!
//! Sums, products and what is shown are defined in `osl_value`'s `specs/Closures.antt`, the part of
//! each primitive in `specs/Primitives.antt`, the parts of what lies in the arena in
//! `specs/Parts.antt`.
#![tactic(auto)]

mod arena;
pub mod node;
pub mod walk;
mod weight;

pub use node::{Node, add, empty, leaf, scale};
pub use walk::flatten;
