//! The ranges that a run is in.

use oso_step::{LoopOp, Span};

/// What goes on at the end of a range.
#[derive(Clone, Copy, Debug, PartialEq, Eq)]
pub enum Frame {
    /// The rest of the range around it.
    Rest(Span),
    /// The rest of the range around a call.
    Called(Span),
    /// A loop whose condition's range is run, and the end of the range around the loop.
    Test(LoopOp, u32),
    /// A loop whose body is run.
    Body(LoopOp, u32),
    /// A loop whose step is run.
    Step(LoopOp, u32),
}

/// Whether ops are run, or ranges are left.
#[derive(Clone, Copy, Debug, PartialEq, Eq)]
pub enum Mode {
    Run,
    Break,
    Continue,
    Return,
}
