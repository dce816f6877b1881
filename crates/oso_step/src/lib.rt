//! What an op of code does, with the ranges that it runs.
//!
//! A step is seen as one of `oso_code`'s (`specs/Decoded.antt` here, `specs/Steps.antt` there).
#![tactic(auto)]

mod decoding;
mod step;

pub use decoding::decode;
pub use step::{LoopOp, Span, Step, Way};
