//! The number that a text is.

ghost use Rattle.std.specs.Prelude.{◌≡◌};
ghost use Rattle.osl_lex.specs.Value.{is_marked, without_suffix, hex_of, float_of, number_of};

use osl_decimal::{read_fx, read_int};
use osl_tree::TokenKind;
use osl_value::Fx;

/// The number that a text is, if it is one: an int or a float in its range.
#[tactic(auto, unfolding(crate::specs::Value::number_of))]
pub(crate) fn number_of(text: &[u8]) -> Option<TokenKind>
    ensures { result ≡ number_of text.now }
{
    if let [b'0', b'x' | b'X', digits @ ..] = text {
        return hex_of(digits).map(TokenKind::Int);
    }
    if let Some(n) = read_int(text) {
        return Some(TokenKind::Int(n));
    }
    float_of(text).map(TokenKind::Float)
}

/// The int whose 32 bits hexadecimal digits give.
#[tactic(auto, unfolding(crate::specs::Value::hex_of))]
fn hex_of(digits: &[u8]) -> Option<i32>
    ensures { result ≡ hex_of digits.now }
{
    if digits.is_empty() {
        return None;
    }
    let mut bits: u32 = 0;
    for digit in digits {
        let value = char::from(*digit).to_digit(16)?;
        bits = bits.checked_mul(16)?.checked_add(value)?;
    }
    Some(bits.cast_signed())
}

/// The float that a decimal with a point or an exponent is, perhaps with an `f` behind it.
#[tactic(auto, unfolding(crate::specs::Value::float_of))]
fn float_of(text: &[u8]) -> Option<Fx>
    ensures { result ≡ float_of text.now }
{
    let decimal = without_suffix(text);
    if is_marked(decimal) {
        read_fx(decimal)
    } else {
        None
    }
}

/// What stands before an `f` at the end of a text.
fn without_suffix(text: &[u8]) -> &[u8]
    ensures { result.now ≡ without_suffix text.now }
{
    match text {
        [decimal @ .., b'f' | b'F'] => decimal,
        _ => text,
    }
}

/// Whether a point or an `e` stands in a text.
fn is_marked(text: &[u8]) -> bool
    ensures { result ≡ is_marked text.now }
{
    text.iter().any(|byte| matches!(*byte, b'.' | b'e' | b'E'))
}
