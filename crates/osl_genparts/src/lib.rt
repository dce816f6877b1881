//! What the code generator makes, and the pieces of code of which it makes up a node.
//!
//! `Made` has the ops and the symbols so far. The definitions are in `specs/`: `Made` says what contracts see of it and
//! what its functions add, and `Calm` which expressions write nothing that was there before them.
#![tactic(auto)]

mod calm;
mod constants;
mod insides;
mod made;

pub use calm::{are_calm, is_calm};
pub use insides::Insides;
pub use made::Made;
