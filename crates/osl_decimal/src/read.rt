ghost use Rattle.std.specs.Prelude.{◌≡◌, ◌≢◌, ◌^◌, ◌<◌, ℤ, FitsSigned, IfSome, IfNone};
ghost use Rattle.std.specs.Int.{w32};
ghost use Rattle.osl_value.specs.Numbers.{IsInRange};
ghost use Rattle.osl_decimal.specs.Decimal.{fx_of, int_of, int_limit, signed};
ghost use Rattle.osl_decimal.specs.Canonical.{fx_text, int_text};

use crate::decimal::Decimal;
use crate::digits::{append_digits, is_numeral, split_minus};
use crate::write::FxText;
use itoa::Buffer;
use osl_value::Fx;

/// The units of the largest float.
const LARGEST: u64 = i64::MAX as u64;

/// The float that a text writes: an optional `-`, digits with at most one point among or beside them
/// and at least one digit, and an optional exponent (`e` or `E`, an optional sign, digits).
///
/// The exact decimal is rounded to nine decimals, half away from zero. None is answered where the
/// text is not of that form, or where the rounded value passes the largest float. It takes as long
/// as the text is, whatever its exponent.
pub fn read_fx(text: &[u8]) -> Option<Fx>
    ensures { result ≡ fx_of text.now }
{
    let (minus, magnitude) = split_minus(text);
    let units = Decimal::parse(magnitude)?.units();
    if units > LARGEST {
        return None;
    }
    Some(Fx::from_units(signed(minus, units)))
}

/// The int that a text writes: an optional `-` and digits. None is answered where the text is not of
/// that form, or where the int would need more than 32 bits.
pub fn read_int(text: &[u8]) -> Option<i32>
    ensures { result ≡ int_of text.now }
{
    let (minus, magnitude) = split_minus(text);
    if !is_numeral(magnitude) {
        return None;
    }
    let number = append_digits(0, magnitude);
    if number > int_limit(minus) {
        return None;
    }
    Some(signed(minus, number) as i32)
}

/// The greatest magnitude of an int with this sign.
fn int_limit(minus: bool) -> u64
    ensures { result ≡ int_limit minus }
{
    if minus { 1 << 31 } else { (1 << 31) - 1 }
}

/// The number with this sign.
fn signed(minus: bool, magnitude: u64) -> i64
    requires { magnitude < 2 ^ 63 }
    ensures { result ≡ signed minus magnitude }
{
    if minus {
        -(magnitude as i64)
    } else {
        magnitude as i64
    }
}

/// The float whose canonical text this is, if it is one.
pub fn read_canonical_fx(text: &[u8]) -> Option<Fx>
    ensures some { IfSome result (λ x. text.now ≡ fx_text x) }
    ensures none { IfNone result ((x : ℤ) → IsInRange x → text.now ≢ fx_text x) }
{
    let x = read_fx(text)?;
    (FxText::of(x).as_bytes() == text).then_some(x)
}

/// The int whose canonical text this is, if it is one.
pub fn read_canonical_int(text: &[u8]) -> Option<i32>
    ensures some { IfSome result (λ n. text.now ≡ int_text n) }
    ensures none { IfNone result ((n : ℤ) → FitsSigned w32 n → text.now ≢ int_text n) }
{
    let n = read_int(text)?;
    (Buffer::new().format(n).as_bytes() == text).then_some(n)
}
