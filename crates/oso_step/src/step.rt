//! The steps of code: what an op does, and the ranges that it runs.

use osl_value::OpName;

/// The ops from `start` up to `end`.
#[derive(Clone, Copy, Debug, PartialEq, Eq)]
pub struct Span {
    pub start: u32,
    pub end: u32,
}

/// A loop: the symbol of its condition, and the ranges of the condition, of the body and of the step. What
/// follows the loop begins where the step's range ends.
#[derive(Clone, Copy, Debug, PartialEq, Eq)]
pub struct LoopOp {
    pub condition: u32,
    pub test: Span,
    pub body: Span,
    pub step: Span,
}

/// A way out of a range other than its end.
#[derive(Clone, Copy, Debug, PartialEq, Eq)]
pub enum Way {
    Break,
    Continue,
    Return,
    Exit,
}

/// What an op does, with the ranges that it runs.
#[derive(Clone, Copy, Debug)]
pub enum Step<'s> {
    /// An operation with a value: the symbol that is written, and those that are read.
    Compute(OpName, u32, &'s [u32]),
    /// A condition, and the ranges that are run where it holds and where it does not.
    Branch(u32, Span, Span),
    /// Whether the condition is tested before the first turn, and the loop.
    Loop(bool, LoopOp),
    /// A range that a return leaves.
    Call(Span),
    Leave(Way),
}
