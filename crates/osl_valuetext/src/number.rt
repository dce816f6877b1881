//! Words that are numbers.

ghost use Rattle.std.specs.Prelude.{◌≡◌, ◌-◌, ◌^◌, min, true, map, option_map, IfSome, IfNone};
ghost use Rattle.std.specs.Str.Parse.{digits_value_after};
ghost use Rattle.osl_decimal.specs.Decimal.{are_digits, is_numeral};
ghost use Rattle.osl_valuetext.specs.Literals.{each, int_at, fx_at, decimal_at, int_word, fx_word, number_at};
ghost use Rattle.osl_valuetext.specs.Scan.{spoken};
ghost use Rattle.osl_valuetext.specs.Unread.{Tells};

use crate::unread::Unread;
use itoa::Buffer;
use osl_decimal::{read_canonical_fx, read_canonical_int, read_fx, read_int};
use osl_value::{Base, Fx};
use std::alloc::Global;

/// Which texts of a number are read.
#[derive(Clone, Copy, Debug, PartialEq, Eq)]
pub enum Spelling {
    /// The canonical one alone, as it is written.
    Canonical,
    /// Any: an int or a float may have leading zeros and `-0`, a float also zeros at the end of its decimals, an exponent
    /// and a point without digits on one side, and it is rounded to nine decimals, half away from zero.
    Free,
}

/// The int of which this is the canonical text.
fn int_at(word: &[u8]) -> Option<i32>
    ensures { result ≡ int_at word.now }
{
    match read_canonical_int(word) {
        Some(n) => Some(n),
        None => None,
    }
}

/// The float of which this is the canonical text.
fn fx_at(word: &[u8]) -> Option<Fx>
    ensures { result ≡ fx_at word.now }
{
    match read_canonical_fx(word) {
        Some(x) => Some(x),
        None => None,
    }
}

fn are_digits(word: &[u8]) -> bool
    ensures { result ≡ are_digits word.now }
{
    word.iter().all(u8::is_ascii_digit)
}

/// Whether a word is digits.
fn is_numeral(word: &[u8]) -> bool
    ensures { result ≡ is_numeral word.now }
{
    !word.is_empty() && are_digits(word)
}

/// The number that digits write, or `u64::MAX` where it is greater.
fn digits_value(digits: &[u8]) -> u64
    requires { are_digits digits.now ≡ true }
    ensures { result ≡ min (digits_value_after 10 0 digits.now) (2 ^ 64 - 1) }
{
    let mut number: u64 = 0;
    for digit in digits {
        let value = u64::from(*digit - b'0');
        number = number.saturating_mul(10).saturating_add(value);
    }
    number
}

/// The number below 2^32 of which this is the text, without a sign or a leading zero. `None` comes where the word is none.
#[tactic(auto, unfolding(crate::specs::Literals::decimal_at))]
pub fn read_decimal(word: &[u8]) -> Option<u32>
    ensures { result ≡ decimal_at word.now }
{
    if !is_numeral(word) {
        return None;
    }
    let value = digits_value(word);
    if value > u64::from(u32::MAX) {
        return None;
    }
    let number = value as u32;
    if Buffer::new().format(number).as_bytes() == word {
        Some(number)
    } else {
        None
    }
}

/// The int that a word writes.
fn int_word(spelling: Spelling, word: &[u8]) -> Option<i32>
    ensures { result ≡ int_word spelling word.now }
{
    match spelling {
        Spelling::Canonical => int_at(word),
        Spelling::Free => read_int(word),
    }
}

/// The float that a word writes.
fn fx_word(spelling: Spelling, word: &[u8]) -> Option<Fx>
    ensures { result ≡ fx_word spelling word.now }
{
    match spelling {
        Spelling::Canonical => fx_at(word),
        Spelling::Free => read_fx(word),
    }
}

/// The number of a base type that a word writes: an int as itself, a float as its units. `None` comes where the word is no
/// number of that spelling, or one out of its range.
pub fn read_number(spelling: Spelling, base: Base, word: &[u8]) -> Option<i64>
    ensures { result ≡ number_at spelling base word.now }
{
    if base == Base::Int {
        match int_word(spelling, word) {
            None => None,
            Some(n) => Some(i64::from(n)),
        }
    } else {
        match fx_word(spelling, word) {
            None => None,
            Some(x) => Some(x.units()),
        }
    }
}

/// The numbers of a base type that words write, in order. `Misspelled` comes where one of them writes none.
pub fn read_numbers(
    alloc: Global,
    spelling: Spelling,
    base: Base,
    words: &[&[u8]],
) -> Result<Vec<i64>, Unread>
    ensures { Tells (λ v. v.items) result (each (number_at spelling base) (spoken words.now)) }
{
    let mut numbers = Vec::new(alloc);
    for word in words {
        let Some(number) = read_number(spelling, base, word) else {
            return Err(Unread::Misspelled);
        };
        numbers.push(number)?;
    }
    Ok(numbers)
}
