//! One operation, executed on the slots of a layer's symbols: it equals `apply`, the table of operations.
#![tactic(auto)]

mod binary;
mod closures;
mod elements;
mod execution;
mod floats;
mod making;
mod matrices;
mod plain;
pub mod read;
pub mod slot;
mod ternary;
mod unary;

pub use execution::execute;
pub use slot::{Kind, Slot};
