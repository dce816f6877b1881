use crate::list::ListOf;
use osl_value::OpName;

/// An operation with its arguments.
#[derive(Debug, Drop)]
pub struct Op {
    pub name: OpName,

    /// The symbols' numbers. What is written comes first.
    pub args: ListOf<u32>,

    /// The ops' numbers at which its ranges end, those of a control op.
    pub jumps: ListOf<u32>,
}

/// The ops from `start` up to `end` that make up a parameter's default, or the shader's body.
#[derive(Clone, Copy, Debug, PartialEq, Eq)]
pub struct Section {
    /// The parameter's number, or none for the body.
    pub param: Option<u32>,
    pub start: u32,
    pub end: u32,
}
