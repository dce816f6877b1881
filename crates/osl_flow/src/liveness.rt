//! The rows of what is live after each op.

ghost use Rattle.std.specs.Prelude.{◌≡◌, ◌<◌, ◌++◌, ℕ, false, [], IfOk, OnOk, length, replicate, slice_index_or};
ghost use Rattle.std.specs.List.{list_any};
ghost use Rattle.oso_code.specs.Ranges.{steps_of};
ghost use Rattle.oso_code.specs.Valid.{IsValid};
ghost use Rattle.osl_rewrites.specs.Flow.{nexts};
ghost use Rattle.osl_rewrites.specs.declared.point.Spot.TheVariants.{At};
ghost use Rattle.osl_flow.specs.Flow.{AreLive, AreSettled, first_rows};
ghost use Rattle.osl_flow.specs.Rows.{AreRows, live_bit};
ghost use Rattle.osl_flow.specs.Table.{table_of};
ghost use Rattle.osl_flow.specs.Uses.{bit};

use crate::contexts::op_nexts;
use crate::passes::settle;
use crate::refresh::{op_count, section_count};
use crate::rows::join_nexts;
use osl_bits::BitRow;
use osl_rewrites::Around;
use osl_value::Memory;
use oso_code::Raw;
use oso_step::decode;
use std::alloc::Global;

/// How many symbols there are.
fn symbol_count(code: &Raw) -> u32
    requires { IsValid code.now }
    ensures { result ≡ length code.now.symbols }
{
    code.symbols.len() as u32
}

/// An equal row.
pub fn copy_row(alloc: Global, row: &BitRow) -> Result<BitRow, Memory>
    ensures { IfOk result (λ copy. copy ≡ row.now) }
{
    let mut copy = BitRow::make(alloc, row.length())?;
    copy.union_with(row);
    Ok(copy)
}

/// Adds so many rows without a bit.
fn push_empty(alloc: Global, rows: &mut Vec<BitRow>, count: u32, symbols: u32) -> Result<(), Memory>
    ensures { OnOk result (rows.new.items ≡ rows.old.items ++ replicate count (replicate symbols false)) }
{
    for _i in 0..count {
        let row = BitRow::make(alloc, symbols)?;
        rows.push(row)?;
    }
    Ok(())
}

/// The rows before any pass.
fn empty_rows(alloc: Global, code: &Raw, asked: &BitRow) -> Result<Vec<BitRow>, Memory>
    requires { IsValid code.now }
    ensures { IfOk result (λ rows. rows.items ≡ first_rows code.now asked.now) }
{
    let mut rows = Vec::new(alloc);
    push_empty(alloc, &mut rows, op_count(code), symbol_count(code))?;
    push_empty(alloc, &mut rows, op_count(code), symbol_count(code))?;
    let end = copy_row(alloc, asked)?;
    rows.push(end)?;
    push_empty(alloc, &mut rows, section_count(code), symbol_count(code))?;
    Ok(rows)
}

/// What is live after an op, by the rows of the spots that follow it.
fn after_op(
    alloc: Global,
    code: &Raw,
    around: &[Around],
    rows: &[BitRow],
    i: u32,
) -> Result<BitRow, Memory>
    requires valid { IsValid code.now }
    requires table { length around.now ≡ length code.now.ops }
    requires within { i < length code.now.ops }
    requires rows { AreRows (length code.now.symbols) rows.now }
    ensures len { IfOk result (λ row. length row ≡ length code.now.symbols) }
    ensures bits { IfOk result (λ row. (k : ℕ) → bit row k ≡ list_any (λ q. live_bit code.now (table_of around.now) rows.now q k) (nexts (steps_of code.now) code.now.sections (table_of around.now) (At i))) }
{
    let step = decode(&code.ops.as_slice()[i as usize], i);
    let nexts = op_nexts(i, around[i as usize], &step);
    let mut row = BitRow::make(alloc, symbol_count(code))?;
    join_nexts(&mut row, rows, op_count(code), section_count(code), nexts);
    Ok(row)
}

/// What is live after each op.
fn after_ops(
    alloc: Global,
    code: &Raw,
    around: &[Around],
    rows: &[BitRow],
) -> Result<Vec<BitRow>, Memory>
    requires valid { IsValid code.now }
    requires table { length around.now ≡ length code.now.ops }
    requires rows { AreRows (length code.now.symbols) rows.now }
    ensures long { IfOk result (λ live. length live.items ≡ length code.now.ops) }
    ensures wide { IfOk result (λ live. AreRows (length code.now.symbols) live.items) }
    ensures bits { IfOk result (λ live. (i k : ℕ) → i < length code.now.ops → bit (slice_index_or live.items i []) k ≡ list_any (λ q. live_bit code.now (table_of around.now) rows.now q k) (nexts (steps_of code.now) code.now.sections (table_of around.now) (At i))) }
{
    let mut live = Vec::new(alloc);
    for i in 0..op_count(code) {
        let row = after_op(alloc, code, around, rows, i)?;
        live.push(row)?;
    }
    Ok(live)
}

/// The rows of all spots, by passes until nothing changes.
fn settled_rows(
    alloc: Global,
    code: &Raw,
    around: &[Around],
    asked: &BitRow,
) -> Result<Vec<BitRow>, Memory>
    requires valid { IsValid code.now }
    requires table { length around.now ≡ length code.now.ops }
    requires asked { length asked.now ≡ length code.now.symbols }
    ensures { IfOk result (λ rows. AreSettled code.now (table_of around.now) asked.now rows.items) }
{
    let none = BitRow::make(alloc, symbol_count(code))?;
    let mut more = BitRow::make(alloc, symbol_count(code))?;
    let mut rows = empty_rows(alloc, code, asked)?;
    settle(code, around, &mut rows, &mut more, &none);
    Ok(rows)
}

/// The rows of what is live after each op.
pub fn live_rows(
    alloc: Global,
    code: &Raw,
    around: &[Around],
    asked: &BitRow,
) -> Result<Vec<BitRow>, Memory>
    requires valid { IsValid code.now }
    requires table { length around.now ≡ length code.now.ops }
    requires asked { length asked.now ≡ length code.now.symbols }
    ensures { IfOk result (λ live. AreLive code.now (table_of around.now) asked.now live.items) }
{
    let rows = settled_rows(alloc, code, around, asked)?;
    let live = after_ops(alloc, code, around, &rows)?;
    Ok(live)
}
