//! How far what begins a list of bytes goes.

ghost use Rattle.std.specs.Prelude.{◌≡◌, ◌≤◌, length, false, IfSome};
ghost use Rattle.osl_lex.specs.Scan.{word_len, line_len, string_end, comment_end, goes_on, is_hex, number_len};

use crate::bytes::{byte_at, is_word_byte};

/// How many bytes of a word stand at the front.
pub(crate) fn word_len(bytes: &[u8]) -> usize
    ensures value { result ≡ word_len bytes.now }
    ensures within { result ≤ length bytes.now }
{
    bytes.iter().take_while(|byte| is_word_byte(**byte)).count()
}

/// How many bytes stand before the first line feed.
pub(crate) fn line_len(bytes: &[u8]) -> usize
    ensures value { result ≡ line_len bytes.now }
    ensures within { result ≤ length bytes.now }
{
    bytes.iter().take_while(|byte| **byte != b'\n').count()
}

/// Behind its first quote, how many bytes a string has: up to and with the quote that closes it.
pub(crate) fn string_end(inside: &[u8]) -> Option<usize>
    ensures value { result ≡ string_end 0 false inside.now }
    ensures within { IfSome result (λ len. len ≤ length inside.now) }
{
    let mut escaped = false;
    for (at, byte) in inside.iter().enumerate() {
        if *byte == b'\n' {
            return None;
        }
        if escaped {
            escaped = false;
        } else if *byte == b'"' {
            return Some(at + 1);
        } else {
            escaped = *byte == b'\\';
        }
    }
    None
}

/// Behind its `/*`, how many bytes a comment has: up to and with the `*/` that closes it.
pub(crate) fn comment_end(inside: &[u8]) -> Option<usize>
    ensures value { result ≡ comment_end 0 false inside.now }
    ensures within { IfSome result (λ len. len ≤ length inside.now) }
{
    let mut star = false;
    for (at, byte) in inside.iter().enumerate() {
        if star && *byte == b'/' {
            return Some(at + 1);
        }
        star = *byte == b'*';
    }
    None
}

/// Whether `0x` or `0X` stands at the front.
pub(crate) fn is_hex(bytes: &[u8]) -> bool
    ensures { result ≡ is_hex bytes.now }
{
    byte_at(bytes, 0) == b'0' && matches!(byte_at(bytes, 1), b'x' | b'X')
}

/// Whether a number goes on with a byte, behind another.
fn goes_on(hex: bool, before: u8, byte: u8) -> bool
    ensures { result ≡ goes_on hex before byte }
{
    is_word_byte(byte)
        || byte == b'.'
        || !hex && matches!(before, b'e' | b'E') && matches!(byte, b'+' | b'-')
}

/// How many bytes the number at the front has, right or wrong: as far as letters, digits, `_`,
/// points and the signs of exponents go, like a preprocessing number of C.
pub(crate) fn number_len(bytes: &[u8]) -> usize
    ensures value { result ≡ number_len bytes.now }
    ensures within { result ≤ length bytes.now }
{
    let hex = is_hex(bytes);
    let mut before = 0;
    for (at, byte) in bytes.iter().enumerate() {
        if !goes_on(hex, before, *byte) {
            return at;
        }
        before = *byte;
    }
    bytes.len()
}
