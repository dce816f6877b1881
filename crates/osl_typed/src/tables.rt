//! What is known of a source's structures and functions while its bodies are weighed.

ghost use Rattle.std.specs.Prelude.{◌≡◌, length};
ghost use Rattle.osl_typed.specs.Measured.{IsLeafTable, IsCallTable};

use crate::shader::{TypedFunction, TypedStructure};
use crate::sizes::{Leaves, Weight};
use osl_overload::Kind;

pub(crate) mod build;
pub(crate) mod nodes;
pub(crate) mod parts;

/// The structures with their leaves, the functions with what a call of each of the first adds, and
/// the kinds of the frame.
#[derive(Drop)]
pub(crate) struct Tables<'a> {
    pub structures: &'a [TypedStructure],
    pub leaves: &'a [Leaves],
    pub functions: &'a [TypedFunction],
    pub calls: &'a [Weight],
    pub kinds: &'a [Kind],
    ghost leaves_known: { IsLeafTable structures.now leaves.now },
    ghost all_leaves: { length leaves.now ≡ length structures.now },
    ghost calls_known: { IsCallTable structures.now functions.now calls.now },
}
