//! The tables of leaves and of calls.

ghost use Rattle.std.specs.Prelude.{◌≡◌, ◌≤◌, length, map, IfOk};
ghost use Rattle.std.specs.List.{flat_map};
ghost use Rattle.osl_typed.specs.Frames.{leaves_with, leaves_below};
ghost use Rattle.osl_typed.specs.Measured.{cut, shortened, IsLeafTable, IsCallTable};
ghost use Rattle.osl_typed.specs.Sizes as spec;

use crate::measure::stmts::body;
use crate::shader::{TypedFunction, TypedStructure};
use crate::sizes::{Leaves, SIZE_TOP, SLOTS_TOP, Weight, stopped};
use crate::tables::Tables;
use crate::tables::nodes::leaves_in;
use osl_overload::{Formal, Kind};
use osl_value::Memory;
use std::alloc::Global;

/// The leaves of fields, by the table of the first structures.
fn leaves_of_fields(structures: &[TypedStructure], table: &[Leaves], fields: &[Kind]) -> Leaves
    requires { IsLeafTable structures.now table.now }
    ensures { result ≡ shortened (flat_map (leaves_with (leaves_below structures.now (length table.now))) fields.now) }
{
    let mut sum = Leaves { count: 0, slots: 0 };
    for field in fields {
        sum = sum.and(leaves_in(structures, table, *field));
    }
    sum
}

/// The table of the leaves of all structures.
pub(crate) fn leaf_table(
    alloc: Global,
    structures: &[TypedStructure],
) -> Result<Vec<Leaves>, Memory>
    ensures known { IfOk result (λ table. IsLeafTable structures.now table.items) }
    ensures whole { IfOk result (λ table. length table.items ≡ length structures.now) }
{
    let mut table = Vec::with_capacity(alloc, structures.len())?;
    for structure in structures {
        let leaves = leaves_of_fields(structures, table.as_slice(), structure.fields.as_slice());
        table.push(leaves)?;
    }
    Ok(table)
}

/// A formal parameter at a call.
fn formal(tables: &Tables, formal: &Formal) -> Weight
    ensures { result ≡ cut (spec.formal_weight tables.now.structures.now formal.now) }
{
    let leaves = tables.leaves_of(formal.kind);
    Weight {
        size: stopped(8 * leaves.count as u64, SIZE_TOP),
        slots: stopped(2 * leaves.slots as u64, SLOTS_TOP),
        calls: 0,
    }
}

fn all_formals(tables: &Tables, formals: &[Formal]) -> Weight
    ensures { result ≡ cut (spec.all_of (map (spec.formal_weight tables.now.structures.now) formals.now)) }
{
    let mut sum = Weight::NOTHING;
    for f in formals {
        sum = sum.and(formal(tables, f));
    }
    sum
}

/// What a call of a function adds, beside its own node and its arguments, where the table has the
/// functions that it may call.
fn call_of(
    structures: &[TypedStructure],
    leaves: &[Leaves],
    functions: &[TypedFunction],
    calls: &[Weight],
    f: &TypedFunction,
) -> Weight
    requires known { IsLeafTable structures.now leaves.now }
    requires whole { length leaves.now ≡ length structures.now }
    requires below { IsCallTable structures.now functions.now calls.now }
    ensures { result ≡ cut (spec.call_weight structures.now (spec.calls_below structures.now functions.now (length calls.now)) f.now) }
{
    let tables = Tables {
        structures,
        leaves,
        functions,
        calls,
        kinds: f.frame.as_slice(),
    };
    all_formals(&tables, f.formals.as_slice())
        .and(body(&tables, f.body.as_slice()))
        .inside_call()
}

/// The table of what calls of all functions add.
pub(crate) fn call_table(
    alloc: Global,
    structures: &[TypedStructure],
    leaves: &[Leaves],
    functions: &[TypedFunction],
) -> Result<Vec<Weight>, Memory>
    requires known { IsLeafTable structures.now leaves.now }
    requires whole { length leaves.now ≡ length structures.now }
    ensures known { IfOk result (λ table. IsCallTable structures.now functions.now table.items) }
    ensures whole { IfOk result (λ table. length table.items ≡ length functions.now) }
{
    let mut table = Vec::with_capacity(alloc, functions.len())?;
    for f in functions {
        let weight = call_of(structures, leaves, functions, table.as_slice(), f);
        table.push(weight)?;
    }
    Ok(table)
}
