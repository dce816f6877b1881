//! Workers and editors, each at work in a thread of its own.
//!
//! `Work` is what a member does, with the relation between the member before and after that an implementation states;
//! `Gate` is where a member may be held up by a test. `fan_out` calls each member's `work` once. That the calls overlap
//! is no part of a contract: it is tested.
#![tactic(auto)]

pub mod fan;
pub mod gate;
pub mod work;

pub use fan::fan_out;
pub use gate::{Gate, NoGate};
pub use work::Work;
