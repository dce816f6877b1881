//! What one byte of a string gives.

ghost use Rattle.std.specs.Prelude.{◌≡◌};
ghost use Rattle.osl_valuetext.specs.declared.escape.Pending.TheVariants.{Nothing};
ghost use Rattle.osl_valuetext.specs.Literals.{is_plain, escaped_byte, escaped_step, is_octal, octal_value, needs_octal, octal_byte, step};

use super::{Pending, Step};

/// Whether a byte stands for itself.
fn is_plain(byte: u8) -> bool
    ensures { result ≡ is_plain byte }
{
    (b' '..=b'~').contains(&byte) && !(byte == b'"' || byte == b'\\')
}

/// The byte that one letter stands for after a backslash.
fn escaped_byte(byte: u8) -> Option<u8>
    ensures { result ≡ escaped_byte byte }
{
    if byte == b'"' || byte == b'\\' {
        Some(byte)
    } else if byte == b'n' {
        Some(b'\n')
    } else if byte == b't' {
        Some(b'\t')
    } else if byte == b'r' {
        Some(b'\r')
    } else {
        None
    }
}

fn is_octal(byte: u8) -> bool
    ensures { result ≡ is_octal byte }
{
    b'0' <= byte && byte <= b'7'
}

/// Whether octal digits alone stand for a byte.
fn needs_octal(n: u16) -> bool
    ensures { result ≡ needs_octal n }
{
    (n < 32 || 126 < n && n < 256) && !(n == 10 || n == 9 || n == 13)
}

/// The byte that three octal digits stand for, if no shorter escape does.
fn octal_byte(first: u8, second: u8, third: u8) -> Option<u8>
    ensures { result ≡ octal_byte first second third }
{
    if !(is_octal(first) && is_octal(second) && is_octal(third)) {
        return None;
    }
    let value = u16::from(first - b'0') * 64
        + u16::from(second - b'0') * 8
        + u16::from(third - b'0');
    if needs_octal(value) {
        Some(value as u8)
    } else {
        None
    }
}

/// What a byte gives after a backslash.
fn escaped_step(byte: u8) -> Step
    ensures { result ≡ escaped_step byte (escaped_byte byte) }
{
    match escaped_byte(byte) {
        None => Step::Waits(Pending::OneDigit(byte)),
        Some(read) => Step::Gives(read),
    }
}

/// What a byte gives where nothing is pending.
fn plain_step(byte: u8) -> Option<Step>
    ensures { result ≡ step Nothing byte }
{
    if byte == b'\\' {
        Some(Step::Waits(Pending::Backslash))
    } else if is_plain(byte) {
        Some(Step::Gives(byte))
    } else {
        None
    }
}

/// What one more byte gives, if it may stand there.
pub(super) fn step(pending: Pending, byte: u8) -> Option<Step>
    ensures { result ≡ step pending byte }
{
    match pending {
        Pending::Nothing => plain_step(byte),
        Pending::Backslash => Some(escaped_step(byte)),
        Pending::OneDigit(first) => Some(Step::Waits(Pending::TwoDigits(first, byte))),
        Pending::TwoDigits(first, second) => match octal_byte(first, second, byte) {
            None => None,
            Some(read) => Some(Step::Gives(read)),
        },
    }
}
