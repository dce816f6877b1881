//! The typed form of each node of an expression, from the typed forms of its parts.
//!
//! Each function answers what `osl_typed`'s definitions have for its node: `Ok` with the typed form, `NoTyping`
//! exactly where there is none, or `Memory` where an allocation failed (`specs/Says`). Calls are in `osl_calls`.
#![tactic(auto)]

pub mod assignment;
pub mod branches;
pub mod constructors;
pub mod error;
pub mod fitting;
pub mod forms;
pub mod kinds;
pub mod operators;
pub mod suffixes;

pub use error::TypeError;
