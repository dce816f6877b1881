//! What a layer's code reads and writes, and what is live in it: the analyses that a specialiser acts on.
//!
//! Sets of symbols are rows of bits (`osl_bits`), one bit a symbol. What an op reads and writes is defined in
//! `oso_code/specs/Ops.antt`, ways through code and liveness in `osl_rewrites/specs/Flow.antt`; `specs/Uses.antt` says
//! which row stands for which set.
#![tactic(auto)]

mod contexts;
mod flow;
mod liveness;
mod passes;
mod refresh;
mod rows;
mod table;
mod uses;

pub use flow::Flow;
pub use table::surroundings;
pub use uses::{reads, writes};
