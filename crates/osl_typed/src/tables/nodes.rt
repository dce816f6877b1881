//! Nodes by their kinds, variables and parts.

ghost use Rattle.std.specs.Prelude.{◌≡◌, min, length};
ghost use Rattle.osl_typed.specs.Frames.{leaves_of, leaves_with, leaves_below};
ghost use Rattle.osl_typed.specs.Measured.{cut, size_top, shortened, IsLeafTable};
ghost use Rattle.osl_typed.specs.Sizes as spec;

use crate::shader::TypedStructure;
use crate::sizes::{Leaves, SIZE_TOP, SLOTS_TOP, Weight, stopped};
use crate::tables::Tables;
use osl_overload::Kind;

/// The leaves of a kind, by the table of the first structures.
pub(crate) fn leaves_in(structures: &[TypedStructure], table: &[Leaves], kind: Kind) -> Leaves
    requires { IsLeafTable structures.now table.now }
    ensures { result ≡ shortened (leaves_with (leaves_below structures.now (length table.now)) kind) }
{
    let none = Leaves { count: 0, slots: 0 };
    match kind {
        Kind::Value(ty) => Leaves {
            count: 1,
            slots: stopped(ty.slot_count(), SLOTS_TOP),
        },
        Kind::Structure(m) => match table.get(m as usize) {
            Some(leaves) => *leaves,
            None => none,
        },
        Kind::Void => none,
    }
}

impl Tables<'_> {
    /// The leaves of a kind, and their slots.
    pub(crate) fn leaves_of(&self, kind: Kind) -> Leaves
        ensures { result ≡ shortened (leaves_of self.now.structures.now kind) }
    {
        leaves_in(self.structures, self.leaves, kind)
    }

    fn node_size(&self, kind: Kind) -> u32
        ensures { result ≡ min size_top (spec.node_size self.now.structures.now kind) }
    {
        match kind {
            Kind::Structure(_) => stopped(4 * self.leaves_of(kind).count as u64, SIZE_TOP),
            _ => 4,
        }
    }

    /// A node that holds no value of its own.
    pub(crate) fn bare(&self, kind: Kind) -> Weight
        ensures { result ≡ cut (spec.bare self.now.structures.now kind) }
    {
        Weight {
            size: self.node_size(kind),
            slots: 1,
            calls: 0,
        }
    }

    /// A node with a value.
    pub(crate) fn valued(&self, kind: Kind) -> Weight
        ensures { result ≡ cut (spec.valued self.now.structures.now kind) }
    {
        let slots = self.leaves_of(kind).slots as u64;
        Weight {
            size: self.node_size(kind),
            slots: stopped(1 + 2 * slots, SLOTS_TOP),
            calls: 0,
        }
    }
}
