//! What holds of the operations as the language means them: laws above the table of operations, as the contracts of
//! functions that do nothing.
//!
//! The laws are stated in `specs/`: `Order.antt` on comparisons, least and greatest numbers and `clamp`, `Strings.antt`
//! on strings, `Matrices.antt` on matrices.
#![tactic(auto)]

pub mod laws;
