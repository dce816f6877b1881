//! The row of one spot, made of those of the spots that follow it.

ghost use Rattle.std.specs.Prelude.{◌≡◌, ◌<◌, ℕ, false, length, replicate};
ghost use Rattle.oso_code.specs.Valid.{IsValid};
ghost use Rattle.osl_rewrites.specs.declared.point.Spot.TheVariants.{At, Test, Gate};
ghost use Rattle.osl_flow.specs.Rows.{AreRows, IsReal, Passed, SettledAt, Sized, wanted};
ghost use Rattle.osl_flow.specs.Table.{table_of};
ghost use Rattle.osl_flow.specs.Uses.{bit};

use crate::contexts::{loop_nexts, op_nexts, section_nexts};
use crate::rows::{add, join_nexts, number, pass_step, pass_test};
use osl_bits::BitRow;
use osl_rewrites::{Around, Spot};
use oso_code::Raw;
use oso_step::decode;

/// How many ops there are.
pub fn op_count(code: &Raw) -> u32
    requires { IsValid code.now }
    ensures { result ≡ length code.now.ops }
{
    code.ops.len() as u32
}

/// How many sections there are.
pub fn section_count(code: &Raw) -> u32
    requires { IsValid code.now }
    ensures { result ≡ length code.now.sections }
{
    code.sections.len() as u32
}

/// Puts into an empty row what is live before an op.
fn before_op(code: &Raw, around: &[Around], rows: &[BitRow], i: u32, more: &mut BitRow)
    requires valid { IsValid code.now }
    requires table { length around.now ≡ length code.now.ops }
    requires within { i < length code.now.ops }
    requires rows { AreRows (length code.now.symbols) rows.now }
    requires empty { more.old ≡ replicate (length code.now.symbols) false }
    ensures len { length more.new ≡ length code.now.symbols }
    ensures bits { (k : ℕ) → bit more.new k ≡ wanted code.now (table_of around.now) rows.now (At i) k }
{
    let step = decode(&code.ops.as_slice()[i as usize], i);
    let nexts = op_nexts(i, around[i as usize], &step);
    join_nexts(more, rows, op_count(code), section_count(code), nexts);
    pass_step(more, &step);
}

/// Puts into an empty row what is live before a loop's condition is read.
fn before_test(code: &Raw, around: &[Around], rows: &[BitRow], i: u32, more: &mut BitRow)
    requires valid { IsValid code.now }
    requires table { length around.now ≡ length code.now.ops }
    requires within { i < length code.now.ops }
    requires rows { AreRows (length code.now.symbols) rows.now }
    requires empty { more.old ≡ replicate (length code.now.symbols) false }
    ensures len { length more.new ≡ length code.now.symbols }
    ensures bits { (k : ℕ) → bit more.new k ≡ wanted code.now (table_of around.now) rows.now (Test i) k }
{
    let step = decode(&code.ops.as_slice()[i as usize], i);
    let nexts = loop_nexts(i, around[i as usize], &step);
    join_nexts(more, rows, op_count(code), section_count(code), nexts);
    pass_test(more, &step);
}

/// Puts into an empty row what is live before the gate of a section.
fn before_gate(code: &Raw, around: &[Around], rows: &[BitRow], j: u32, more: &mut BitRow)
    requires valid { IsValid code.now }
    requires within { j < length code.now.sections }
    requires rows { AreRows (length code.now.symbols) rows.now }
    requires empty { more.old ≡ replicate (length code.now.symbols) false }
    ensures len { length more.new ≡ length code.now.symbols }
    ensures bits { (k : ℕ) → bit more.new k ≡ wanted code.now (table_of around.now) rows.now (Gate j) k }
{
    let nexts = section_nexts(j, code.sections.as_slice()[j as usize]);
    join_nexts(more, rows, op_count(code), section_count(code), nexts);
}

/// Adds to the row of a spot what is live there by the rows of the spots that follow it. Whether it lacked anything.
pub fn refresh(
    code: &Raw,
    around: &[Around],
    rows: &mut [BitRow],
    spot: Spot,
    more: &mut BitRow,
    none: &BitRow,
) -> bool
    requires valid { IsValid code.now }
    requires table { length around.now ≡ length code.now.ops }
    requires real { IsReal code.now spot }
    requires rows { Sized code.now (table_of around.now) rows.old }
    requires empty { more.old ≡ replicate (length code.now.symbols) false }
    requires none { none.now ≡ replicate (length code.now.symbols) false }
    ensures passed { Passed code.now (table_of around.now) rows.old rows.new result }
    ensures settled { result ≡ false → SettledAt code.now (table_of around.now) rows.new spot }
    ensures emptied { more.new ≡ replicate (length code.now.symbols) false }
{
    match spot {
        Spot::At(i) => before_op(code, around, rows, i, more),
        Spot::Test(i) => before_test(code, around, rows, i, more),
        Spot::Gate(j) => before_gate(code, around, rows, j, more),
        Spot::Done => {}
    }
    let at = number(op_count(code), section_count(code), spot);
    add(&mut rows[at], more, none)
}
