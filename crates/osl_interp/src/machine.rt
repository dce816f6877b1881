//! The machine's state.

use crate::frame::{Frame, Mode};
use crate::known::Known;
use osl_apply::Slot;
use oso_code::Raw;
use std::alloc::Global;

/// A run of a layer's code, as far as it has come.
#[derive(Drop)]
pub struct Machine<'a> {
    pub alloc: Global,
    pub code: &'a Raw,

    /// What is known of the parameters' inputs.
    pub inputs: Vec<Known>,

    /// What the symbols hold.
    pub slots: Vec<Slot<'a>>,

    /// The turns of loops that are left.
    pub turns: u32,

    /// The ranges around the one that is run, the innermost last.
    pub frames: Vec<Frame>,
    pub mode: Mode,

    /// The next op, and the end of its range.
    pub at: u32,
    pub end: u32,

    /// The next section.
    pub section: usize,
}
