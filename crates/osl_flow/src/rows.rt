//! Rows of bits, one for each spot, and how one row is made of others.

ghost use Rattle.std.specs.Prelude.{◌≡◌, ◌<◌, ◌+◌, ◌^◌, ℕ, ◌||◌, ◌&&◌, not, true, false, List, [], Some, length, replicate, slice_index_or};
ghost use Rattle.std.specs.List.{list_any};
ghost use Rattle.oso_code.specs.declared.symbol.Symbol.{Symbol};
ghost use Rattle.oso_code.specs.Uses.{reads_on_entry, reads_in_test, written_by};
ghost use Rattle.oso_step.specs.Decoded.{seen_step};
ghost use Rattle.osl_flow.specs.Rows.{AreRows, UsesBelow, is_symbol, lacks, number, row_at};
ghost use Rattle.osl_flow.specs.Uses.{bit, has};
ghost use Rattle.osl_flow.specs.Ways.{spots_of};

use crate::contexts::Nexts;
use crate::uses::set_all;
use osl_bits::BitRow;
use osl_rewrites::Spot;
use oso_step::Step;

/// The place of a spot's row, of code with so many ops and sections.
pub fn number(ops: u32, sections: u32, spot: Spot) -> usize
    ensures { result ≡ number ops sections spot }
{
    let (n, m) = (ops as usize, sections as usize);
    match spot {
        Spot::At(i) => if i < ops { i as usize } else { n + n + 1 + m },
        Spot::Test(i) => if i < ops {
            n + i as usize
        } else {
            n + n + 1 + m
        },
        Spot::Gate(j) => if j < sections {
            n + n + 1 + j as usize
        } else {
            n + n
        },
        Spot::Done => n + n,
    }
}

/// Joins a row with that at a place, if there is one.
fn join(more: &mut BitRow, rows: &[BitRow], at: usize)
    requires { AreRows (length more.old) rows.now }
    ensures len { length more.new ≡ length more.old }
    ensures bits { (k : ℕ) → bit more.new k ≡ (bit more.old k || bit (slice_index_or rows.now at []) k) }
{
    if let Some(row) = rows.get(at) {
        more.union_with(row);
    }
}

/// Joins a row with those of the spots where ways go on.
pub fn join_nexts(more: &mut BitRow, rows: &[BitRow], ops: u32, sections: u32, nexts: Nexts)
    requires { AreRows (length more.old) rows.now }
    ensures len { length more.new ≡ length more.old }
    ensures bits { (k : ℕ) → bit more.new k ≡ (bit more.old k || list_any (λ q. row_at rows.now ops sections q k) (spots_of nexts)) }
{
    match nexts {
        Nexts::None => {}
        Nexts::One(p) => join(more, rows, number(ops, sections, p)),
        Nexts::Two(p, q) => {
            join(more, rows, number(ops, sections, p));
            join(more, rows, number(ops, sections, q));
        }
    }
}

/// Takes away what a step writes, and adds what it reads on entry.
pub fn pass_step(more: &mut BitRow, step: &Step<'_>)
    requires { (symbols : List Symbol) → UsesBelow (length more.old) (seen_step symbols step.now) }
    ensures len { length more.new ≡ length more.old }
    ensures bits { (symbols : List Symbol) (k : ℕ) → bit more.new k ≡ ((bit more.old k && not (is_symbol (written_by (seen_step symbols step.now)) k)) || has (reads_on_entry (seen_step symbols step.now)) k) }
{
    match *step {
        Step::Compute(_, target, sources) => {
            more.set(target, false);
            set_all(more, sources);
        }
        Step::Branch(c, _, _) => more.set(c, true),
        _ => {}
    }
}

/// Adds what a loop reads in its test.
pub fn pass_test(more: &mut BitRow, step: &Step<'_>)
    requires { (symbols : List Symbol) → UsesBelow (length more.old) (seen_step symbols step.now) }
    ensures len { length more.new ≡ length more.old }
    ensures bits { (symbols : List Symbol) (k : ℕ) → bit more.new k ≡ (bit more.old k || has (reads_in_test (seen_step symbols step.now)) k) }
{
    if let Step::Loop(_, l) = *step {
        more.set(l.condition, true);
    }
}

/// Adds to a row what it lacks of another, which is empty then. Whether it lacked anything.
pub fn add(row: &mut BitRow, more: &mut BitRow, none: &BitRow) -> bool
    requires size { length more.old ≡ length row.old }
    requires none { none.now ≡ replicate (length row.old) false }
    ensures bits { (k : ℕ) → bit row.new k ≡ (bit row.old k || bit more.old k) }
    ensures len { length row.new ≡ length row.old }
    ensures emptied { more.new ≡ replicate (length row.old) false }
    ensures still { result ≡ false → row.new ≡ row.old }
    ensures rises { result ≡ true → lacks row.new < lacks row.old }
{
    more.minus_with(row);
    if more.equal(none) {
        return false;
    }
    row.union_with(more);
    more.minus_with(row);
    true
}
