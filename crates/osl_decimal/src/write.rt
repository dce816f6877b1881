ghost use Rattle.std.specs.Prelude.{◌≡◌, ◌+◌, ◌<◌, ◌≤◌, ◌∷◌, ◌++◌, drop, length, OnOk, OnErr};
ghost use Rattle.osl_value.specs.Numbers.{scale, IsInRange};
ghost use Rattle.osl_decimal.specs.Canonical.{fx_text, int_text, fraction_text};

use itoa::{Buffer, write_digits};
use osl_value::{Fx, Memory};
use std::marker::Model;

/// The units of 1.0.
const SCALE: u64 = 1_000_000_000;

/// How many decimals a float has.
const PLACES: u32 = 9;

/// The longest text of a float: a minus, ten digits, the point, nine decimals.
const LONGEST: usize = 21;

/// Appends the canonical text of a float: no plus, no leading zero but one before the point, no zero
/// at the end of the decimals, no point without decimals, no exponent, and `0` for zero.
pub fn write_fx(x: Fx, out: &mut Vec<u8>) -> Result<(), Memory>
    ensures ok { OnOk result (out.new.items ≡ out.old.items ++ fx_text x) }
    ensures err { OnErr result (out.new.items ≡ out.old.items) }
{
    out.extend_from_slice(FxText::of(x).as_bytes())?;
    Ok(())
}

/// Appends the canonical text of an int: no plus, no leading zero, and `0` for zero.
pub fn write_int(n: i32, out: &mut Vec<u8>) -> Result<(), Memory>
    ensures ok { OnOk result (out.new.items ≡ out.old.items ++ int_text n) }
    ensures err { OnErr result (out.new.items ≡ out.old.items) }
{
    out.extend_from_slice(Buffer::new().format(n).as_bytes())?;
    Ok(())
}

/// The canonical text of a float, in a buffer of its own.
#[derive(Drop)]
pub(crate) struct FxText {
    bytes: [u8; LONGEST],
    start: usize,
}

impl Model for FxText {
    ghost use Rattle.std.specs.Prelude.{ℕ, ◌≤◌, List, drop};

    ghost Value = { List ℕ };

    ghost view = { λ t. drop t.start t.bytes };

    ghost invariant = { λ t. t.start ≤ 21 };
}

impl FxText {
    pub(crate) fn of(x: Fx) -> FxText
        ensures { result ≡ fx_text x }
    {
        let units = x.units();
        let magnitude = units.unsigned_abs();
        let mut bytes = [0; LONGEST];
        let point = write_fraction(magnitude % SCALE, &mut bytes);
        let start = write_digits(magnitude / SCALE, &mut bytes, point);
        let start = if units < 0 {
            put_before(b'-', &mut bytes, start)
        } else {
            start
        };
        FxText { bytes, start }
    }

    pub(crate) fn as_bytes(&self) -> &[u8]
        ensures { result.now ≡ self.now }
    {
        &self.bytes[self.start..]
    }
}

/// Writes a fraction of nine places after its point, so that it ends where the bytes end, and
/// answers where it starts. Zeros at its end are left out, and of a fraction of 0 the point too.
fn write_fraction(fraction: u64, bytes: &mut [u8]) -> usize
    requires below_one { fraction < scale }
    requires room { 10 ≤ length bytes.old }
    ensures within { result ≤ length bytes.old }
    ensures short { length bytes.old ≤ result + 10 }
    ensures written { drop result bytes.new ≡ fraction_text fraction }
{
    let end = bytes.len();
    let mut left = fraction;
    let mut start = end;
    for _place in 0..PLACES {
        let digit = (left % 10) as u8;
        left /= 10;
        if digit > 0 || start < end {
            start = put_before(b'0' + digit, bytes, start);
        }
    }
    if start < end {
        put_before(b'.', bytes, start)
    } else {
        start
    }
}

/// Writes a byte before what starts at `end`, and answers where it is.
fn put_before(byte: u8, bytes: &mut [u8], end: usize) -> usize
    requires some { 0 < end }
    requires within { end ≤ length bytes.old }
    ensures start { result + 1 ≡ end }
    ensures written { drop result bytes.new ≡ byte ∷ drop end bytes.old }
{
    let start = end - 1;
    bytes[start] = byte;
    start
}
