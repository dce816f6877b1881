//! What names on a line mean: owners of sections, operations, and symbols.

ghost use Rattle.std.specs.Prelude.{◌≡◌, find, option_map, IfOk};
ghost use Rattle.std.specs.Str.{bytes_eq};
ghost use Rattle.osl_value.specs.OpText.{name_of};
ghost use Rattle.std.specs.Option.{ok_or};
ghost use Rattle.oso_read.specs.declared.error.OsoKind.TheVariants as kinds;
ghost use Rattle.oso_read.specs.Finds.{Finds};
ghost use Rattle.osl_valuetext.specs.Literals.{each};
ghost use Rattle.oso_read.specs.Reading.{may_follow, owner_named, op_named, symbol_number, op_of};
ghost use Rattle.oso_read.specs.Said.{op_words_of};
ghost use Rattle.osl_valuetext.specs.Scan.{spoken};

use crate::body::Start;
use crate::error::OsoKind;
use crate::fault::LineFault;
use crate::op_line::OpLine;
use crate::table::Table;
use osl_value::{Memory, OpName};
use oso_code::checks::sections::owner_follows;
use oso_code::name::is_main_name;
use oso_code::{ListOf, Op};
use std::alloc::Global;

/// Whether a section may follow one.
pub(crate) fn may_follow(last: Option<Start>, owner: Option<u32>) -> bool
    ensures { result ≡ may_follow last owner }
{
    match last {
        None => true,
        Some(last) => owner_follows(last.owner, owner),
    }
}

/// The body for `___main___`, and else the number of a symbol.
pub(crate) fn owner_named(table: &Table, name: &[u8]) -> Option<Option<u32>>
    ensures { result ≡ owner_named table.now.symbols.items name.now }
{
    if is_main_name(name) {
        return Some(None);
    }
    match table.number_of(name) {
        Some(number) => Some(Some(number)),
        None => None,
    }
}

/// The first of these operations that has a name.
fn find_op(ops: &[OpName], name: &[u8]) -> Option<OpName>
    ensures { result ≡ find (λ op. bytes_eq name.now (name_of op)) ops.now }
{
    ops.iter().copied().find(|op| name == op.name().as_bytes())
}

/// The operation of a name.
#[tactic(auto, unfolding(crate::specs::Reading::op_named))]
fn op_named(name: &[u8]) -> Option<OpName>
    ensures { result ≡ op_named name.now }
{
    find_op(&OpName::ALL, name)
}

/// The numbers of the symbols of these names.
fn numbers_of(alloc: Global, table: &Table, names: &[&[u8]]) -> Result<Option<Vec<u32>>, Memory>
    ensures { IfOk result (λ numbers. option_map (λ v. v.items) numbers
        ≡ each (symbol_number table.now.symbols.items) (spoken names.now)) }
{
    let mut numbers = Vec::new(alloc);
    for name in names {
        let Some(number) = table.number_of(name) else {
            return Ok(None);
        };
        numbers.push(number)?;
    }
    Ok(Some(numbers))
}

/// The op of these words, if its name and its arguments are known.
pub(crate) fn op_of(alloc: Global, table: &Table, line: OpLine) -> Result<Op, LineFault>
    ensures { Finds (λ op. op) result (ok_or (op_of table.now.symbols.items (op_words_of line.entry)) kinds.Op) }
{
    let OpLine { name, args, jumps } = line;
    let Some(name) = op_named(name) else {
        return Err(LineFault::Kind(OsoKind::Op));
    };
    let Some(numbers) = numbers_of(alloc, table, args)? else {
        return Err(LineFault::Kind(OsoKind::Op));
    };
    Ok(Op {
        name,
        args: ListOf::new(numbers),
        jumps: ListOf::new(jumps),
    })
}
