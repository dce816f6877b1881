//! What an op reads and writes.

ghost use Rattle.std.specs.Prelude.{◌≡◌, ◌<◌, ◌||◌, ℕ, false, length, replicate};
ghost use Rattle.std.specs.List.{All};
ghost use Rattle.oso_code.specs.Ops.{reads as reads_of_op, written};
ghost use Rattle.osl_flow.specs.Uses.{bit, has, row_of, writes_of};

use osl_bits::BitRow;
use oso_code::Op;

/// Makes each bit false.
fn clear(row: &mut BitRow)
    ensures { row.new ≡ replicate (length row.old) false }
{
    for k in 0..row.length() {
        row.set(k, false);
    }
}

/// Sets the bits of these symbols; the others stay.
pub fn set_all(row: &mut BitRow, symbols: &[u32])
    requires { All (λ k. k < length row.old) symbols.now }
    ensures len { length row.new ≡ length row.old }
    ensures bits { (k : ℕ) → bit row.new k ≡ (bit row.old k || has symbols.now k) }
{
    for k in symbols {
        row.set(*k, true);
    }
}

/// The symbols that an op reads: a condition, or its operands.
fn read_by(op: &Op) -> &[u32]
    ensures { result.now ≡ reads_of_op op.now }
{
    let args = op.args.as_slice();
    if op.name.is_control() || op.name.updates() {
        return args;
    }
    match args {
        [] => args,
        [_, others @ ..] => others,
    }
}

/// The symbols that an op writes: none or one.
fn written_by(op: &Op) -> &[u32]
    ensures { result.now ≡ writes_of op.now }
{
    let args = op.args.as_slice();
    if op.name.is_control() {
        return &[];
    }
    match args {
        [] => args,
        [_, ..] => &args[..1],
    }
}

/// Makes a row the set of the symbols that an op reads.
pub fn reads(op: &Op, into: &mut BitRow)
    requires { All (λ k. k < length into.old) (reads_of_op op.now) }
    ensures { into.new ≡ row_of (length into.old) (has (reads_of_op op.now)) }
{
    clear(into);
    set_all(into, read_by(op));
}

/// Makes a row the set of the symbols that an op writes.
pub fn writes(op: &Op, into: &mut BitRow)
    requires { All (λ k. k < length into.old) (writes_of op.now) }
    ensures { into.new ≡ row_of (length into.old) (has (writes_of op.now)) }
{
    clear(into);
    set_all(into, written_by(op));
}
