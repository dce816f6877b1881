//! All rows, made by passes from the last op to the first, until one changes nothing.

ghost use Rattle.std.specs.Prelude.{◌≡◌, ◌<◌, ◌≤◌, ◌||◌, ℕ, false, length, replicate};
ghost use Rattle.oso_code.specs.Valid.{IsValid};
ghost use Rattle.osl_rewrites.specs.declared.point.Spot.{Spot};
ghost use Rattle.osl_flow.specs.Rows.{IsReal, Passed, SettledAt, Sized, SettledOp, Reached};
ghost use Rattle.osl_flow.specs.Table.{table_of};

use crate::contexts::{Nexts, op_nexts};
use crate::refresh::{op_count, refresh, section_count};
use osl_bits::BitRow;
use osl_rewrites::{Around, Spot};
use oso_code::Raw;
use oso_step::decode;

/// Whether one of three holds.
fn one_of(a: bool, b: bool, c: bool) -> bool
    ensures { result ≡ ((a || b) || c) }
{
    (a || b) || c
}

/// Refreshes a spot before what leads to it, if it is a loop's test: that of a loop that ends there is not yet fresh.
fn refresh_test(
    code: &Raw,
    around: &[Around],
    rows: &mut [BitRow],
    spot: Spot,
    more: &mut BitRow,
    none: &BitRow,
) -> bool
    requires valid { IsValid code.now }
    requires table { length around.now ≡ length code.now.ops }
    requires rows { Sized code.now (table_of around.now) rows.old }
    requires empty { more.old ≡ replicate (length code.now.symbols) false }
    requires none { none.now ≡ replicate (length code.now.symbols) false }
    ensures passed { Passed code.now (table_of around.now) rows.old rows.new result }
    ensures emptied { more.new ≡ replicate (length code.now.symbols) false }
{
    if let Spot::Test(i) = spot {
        if i < op_count(code) {
            return refresh(code, around, rows, spot, more, none);
        }
    }
    false
}

/// Refreshes the tests to which ways go on from an op.
fn refresh_ahead(
    code: &Raw,
    around: &[Around],
    rows: &mut [BitRow],
    i: u32,
    more: &mut BitRow,
    none: &BitRow,
) -> bool
    requires valid { IsValid code.now }
    requires table { length around.now ≡ length code.now.ops }
    requires within { i < length code.now.ops }
    requires rows { Sized code.now (table_of around.now) rows.old }
    requires empty { more.old ≡ replicate (length code.now.symbols) false }
    requires none { none.now ≡ replicate (length code.now.symbols) false }
    ensures passed { Passed code.now (table_of around.now) rows.old rows.new result }
    ensures emptied { more.new ≡ replicate (length code.now.symbols) false }
{
    let step = decode(&code.ops.as_slice()[i as usize], i);
    match op_nexts(i, around[i as usize], &step) {
        Nexts::None => false,
        Nexts::One(p) => refresh_test(code, around, rows, p, more, none),
        Nexts::Two(p, q) => {
            let first = refresh_test(code, around, rows, p, more, none);
            let second = refresh_test(code, around, rows, q, more, none);
            one_of(first, second, false)
        }
    }
}

/// Refreshes what belongs to an op.
fn refresh_op(
    code: &Raw,
    around: &[Around],
    rows: &mut [BitRow],
    i: u32,
    more: &mut BitRow,
    none: &BitRow,
) -> bool
    requires valid { IsValid code.now }
    requires table { length around.now ≡ length code.now.ops }
    requires within { i < length code.now.ops }
    requires rows { Sized code.now (table_of around.now) rows.old }
    requires empty { more.old ≡ replicate (length code.now.symbols) false }
    requires none { none.now ≡ replicate (length code.now.symbols) false }
    ensures passed { Passed code.now (table_of around.now) rows.old rows.new result }
    ensures settled { result ≡ false → SettledOp code.now (table_of around.now) rows.new i }
    ensures emptied { more.new ≡ replicate (length code.now.symbols) false }
{
    let ahead = refresh_ahead(code, around, rows, i, more, none);
    let test = refresh(code, around, rows, Spot::Test(i), more, none);
    let op = refresh(code, around, rows, Spot::At(i), more, none);
    one_of(ahead, test, op)
}

/// Refreshes the ops of a range, from the last to the first.
fn pass_ops(
    code: &Raw,
    around: &[Around],
    rows: &mut [BitRow],
    start: u32,
    end: u32,
    more: &mut BitRow,
    none: &BitRow,
) -> bool
    requires valid { IsValid code.now }
    requires table { length around.now ≡ length code.now.ops }
    requires within { end ≤ length code.now.ops }
    requires rows { Sized code.now (table_of around.now) rows.old }
    requires empty { more.old ≡ replicate (length code.now.symbols) false }
    requires none { none.now ≡ replicate (length code.now.symbols) false }
    ensures passed { Passed code.now (table_of around.now) rows.old rows.new result }
    ensures settled { result ≡ false → (i : ℕ) → start ≤ i → i < end → SettledOp code.now (table_of around.now) rows.new i }
    ensures emptied { more.new ≡ replicate (length code.now.symbols) false }
{
    let mut changed = false;
    let mut i = end;
    while start < i {
        i -= 1;
        let now = refresh_op(code, around, rows, i, more, none);
        changed = one_of(changed, now, false);
    }
    changed
}

/// Refreshes all spots, from the last section to the first.
fn pass(
    code: &Raw,
    around: &[Around],
    rows: &mut [BitRow],
    more: &mut BitRow,
    none: &BitRow,
) -> bool
    requires valid { IsValid code.now }
    requires table { length around.now ≡ length code.now.ops }
    requires rows { Sized code.now (table_of around.now) rows.old }
    requires empty { more.old ≡ replicate (length code.now.symbols) false }
    requires none { none.now ≡ replicate (length code.now.symbols) false }
    ensures passed { Passed code.now (table_of around.now) rows.old rows.new result }
    ensures settled { result ≡ false → (p : Spot) → IsReal code.now p → SettledAt code.now (table_of around.now) rows.new p }
    ensures emptied { more.new ≡ replicate (length code.now.symbols) false }
{
    let mut changed = false;
    let mut j = section_count(code);
    while 0 < j {
        j -= 1;
        let section = code.sections.as_slice()[j as usize];
        let ops = pass_ops(code, around, rows, section.start, section.end, more, none);
        let gate = refresh(code, around, rows, Spot::Gate(j), more, none);
        changed = one_of(changed, ops, gate);
    }
    changed
}

/// Refreshes all spots until nothing changes.
pub fn settle(code: &Raw, around: &[Around], rows: &mut [BitRow], more: &mut BitRow, none: &BitRow)
    requires valid { IsValid code.now }
    requires table { length around.now ≡ length code.now.ops }
    requires rows { Sized code.now (table_of around.now) rows.old }
    requires empty { more.old ≡ replicate (length code.now.symbols) false }
    requires none { none.now ≡ replicate (length code.now.symbols) false }
    ensures reached { Reached code.now (table_of around.now) rows.old rows.new }
    ensures settled { (p : Spot) → IsReal code.now p → SettledAt code.now (table_of around.now) rows.new p }
{
    let mut changed = true;
    while changed {
        changed = pass(code, around, rows, more, none);
    }
}
