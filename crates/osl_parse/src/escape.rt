//! The bytes for which a string stands.

ghost use Rattle.std.specs.Prelude.{◌≡◌, ◌<◌, IfOk, Option, option_map};
ghost use Rattle.osl_tree.specs.Lexemes as spec;
ghost use Rattle.osl_parse.specs.Bytes.{next_byte_of};

use sqlite_items::Items;
use std::alloc::{AllocError, Global};

fn is_octal(byte: u8) -> bool
    ensures { result ≡ spec.is_octal byte }
{
    matches!(byte, b'0'..=b'7')
}

fn third_digit(number: u8, text: &[u8]) -> (u8, &[u8])
    requires { number < 64 }
    ensures { (result.0, result.1.now) ≡ spec.third_digit number text.now }
{
    if let [digit, rest @ ..] = text
        && is_octal(*digit)
    {
        let number = number as u16 * 8 + (*digit - b'0') as u16;
        return ((number % 256) as u8, rest);
    }
    (number, text)
}

fn second_digit(number: u8, text: &[u8]) -> (u8, &[u8])
    requires { number < 8 }
    ensures { (result.0, result.1.now) ≡ spec.second_digit number text.now }
{
    if let [digit, rest @ ..] = text
        && is_octal(*digit)
    {
        return third_digit(number * 8 + (*digit - b'0'), rest);
    }
    (number, text)
}

fn plain_escape(byte: u8) -> u8
    ensures { result ≡ spec.plain_escape byte }
{
    match byte {
        b'n' => b'\n',
        b't' => b'\t',
        b'r' => b'\r',
        _ => byte,
    }
}

fn escape(byte: u8, rest: &[u8]) -> (u8, &[u8])
    ensures { (result.0, result.1.now) ≡ spec.escape byte rest.now }
{
    if is_octal(byte) {
        return second_digit(byte - b'0', rest);
    }
    (plain_escape(byte), rest)
}

/// The first byte for which the text stands, and the text that follows.
fn first_byte(text: &[u8]) -> Option<(u8, &[u8])>
    ensures { next_byte_of result ≡ spec.first_byte text.now }
{
    match text {
        [] => None,
        [byte] => Some((*byte, &[])),
        [b'\\', byte, rest @ ..] => Some(escape(*byte, rest)),
        [byte, rest @ ..] => Some((*byte, rest)),
    }
}

/// The bytes for which the text between two quotes stands.
#[tactic(auto, unfolding(osl_tree::specs::Lexemes::unescaped, osl_tree::specs::Lexemes::unescaped_from))]
pub fn unescaped(alloc: Global, text: &[u8]) -> Result<Items<u8>, AllocError>
    ensures { IfOk result (λ bytes. bytes ≡ spec.unescaped text.now) }
{
    let mut bytes = Items::new(alloc);
    let mut rest = text;
    for _turn in 0..text.len() {
        let Some((byte, behind)) = first_byte(rest) else {
            return Ok(bytes);
        };
        bytes.push(byte)?;
        rest = behind;
    }
    Ok(bytes)
}
