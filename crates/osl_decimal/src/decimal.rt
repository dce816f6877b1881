ghost use Rattle.std.specs.Prelude.{◌≡◌, ℕ, ◌+◌, ◌-◌, ◌^◌, ◌<◌, ◌≤◌, List, ◌++◌, min, true, false, length, take, IfSome, is_some, IfNone, MatchOption, MatchBool, slice_index, position};
ghost use Rattle.std.specs.List.{list_any, before_first, after_first};
ghost use Rattle.std.specs.Str.Parse.{digits_value};
ghost use Rattle.osl_decimal.specs.Decimal.{are_digits, is_numeral, has_minus, is_point, begins_exponent, mantissa, exponent, without_sign, is_decimal, decimal_units};

use crate::digits::{append_digits, are_digits, is_numeral, power_of_ten};

/// How many decimals a float has.
const PLACES: u64 = 9;

/// The parts of a decimal: digits on both sides of the point, and the exponent's.
#[derive(Clone, Copy)]
pub(crate) struct Decimal<'a> {
    whole: &'a [u8],
    decimals: &'a [u8],
    divides: bool,
    exponent: &'a [u8],
    ghost whole_digits: { are_digits whole.now ≡ true },
    ghost decimal_digits: { are_digits decimals.now ≡ true },
    ghost exponent_digits: { are_digits exponent.now ≡ true },
    ghost short: { length whole.now + length decimals.now < 2 ^ 63 },
}

fn point_place(text: &[u8]) -> Option<usize>
    ensures { result ≡ position is_point text.now }
{
    text.iter().position(|byte| *byte == b'.')
}

fn exponent_place(text: &[u8]) -> Option<usize>
    ensures { result ≡ position begins_exponent text.now }
{
    text.iter().position(|byte| *byte == b'e' || *byte == b'E')
}

/// What is before the point, and what after it.
fn split_point(text: &[u8]) -> (&[u8], &[u8])
    ensures before { result.0.now ≡ before_first is_point text.now }
    ensures after { result.1.now ≡ after_first is_point text.now }
{
    match point_place(text) {
        Some(at) => (&text[..at], &text[at + 1..]),
        None => (text, &[]),
    }
}

/// What is before an exponent, and the exponent after its `e`.
fn split_exponent(text: &[u8]) -> (&[u8], Option<&[u8]>)
    ensures before { result.0.now ≡ mantissa text.now }
    ensures after { MatchOption result.1
        (list_any begins_exponent text.now ≡ false)
        (λ rest. (list_any begins_exponent text.now ≡ true) × (rest.now ≡ exponent text.now)) }
{
    match exponent_place(text) {
        Some(at) => (&text[..at], Some(&text[at + 1..])),
        None => (text, None),
    }
}

/// Whether there is a digit on one side of the point, and nothing else on either.
fn are_numeral(whole: &[u8], decimals: &[u8]) -> bool
    ensures { result ≡ is_numeral (whole.now ++ decimals.now) }
{
    (!whole.is_empty() || !decimals.is_empty()) && are_digits(whole) && are_digits(decimals)
}

/// Whether an exponent has a minus, and what is after its sign.
fn split_sign(text: &[u8]) -> (bool, &[u8])
    ensures minus { result.0 ≡ has_minus text.now }
    ensures digits { result.1.now ≡ without_sign text.now }
{
    match text {
        [b'-', digits @ ..] => (true, digits),
        [b'+', digits @ ..] => (false, digits),
        _ => (false, text),
    }
}

impl<'a> Decimal<'a> {
    ghost use Rattle.osl_decimal.specs.Parts.{HasParts};

    /// The parts of a text, if it is a decimal.
    pub(crate) fn parse(text: &'a [u8]) -> Option<Decimal<'a>>
        ensures some { is_some result ≡ is_decimal text.now }
        ensures parts { IfSome result (HasParts text.now) }
    {
        let (mantissa, exponent) = split_exponent(text);
        let (whole, decimals) = split_point(mantissa);
        if !are_numeral(whole, decimals) {
            return None;
        }
        let Some(exponent) = exponent else {
            return Some(Decimal {
                whole,
                decimals,
                divides: false,
                exponent: &[],
            });
        };
        let (divides, exponent) = split_sign(exponent);
        if !is_numeral(exponent) {
            return None;
        }
        Some(Decimal {
            whole,
            decimals,
            divides,
            exponent,
        })
    }

    /// The number of units nearest to the value, or `u64::MAX` where there are more.
    ///
    /// Nine places and the exponent move the point. The digits before it are whole units, the first
    /// after it rounds, and where digits are missing zeros stand for them.
    pub(crate) fn units(&self) -> u64
        ensures { (text : List ℕ) → HasParts text self.now
            → result ≡ min (decimal_units text) (2 ^ 64 - 1) }
    {
        let count = self.whole.len() as u64 + self.decimals.len() as u64;
        let Some(kept) = self.moved_point() else {
            return 0;
        };
        if kept < count {
            let rounds_up = self.digit(kept as usize) >= b'5';
            self.front(kept as usize)
                .saturating_add(u64::from(rounds_up))
        } else {
            self.front(count as usize)
                .saturating_mul(power_of_ten(kept - count))
        }
    }

    /// How many digits are before the point, once it has moved: none before the first digit.
    fn moved_point(&self) -> Option<u64>
        ensures none { IfNone result ((self.now.divides ≡ true)
            × (length self.now.whole.now + 9 < digits_value 10 self.now.exponent.now)) }
        ensures some { IfSome result (λ place. MatchBool self.now.divides
            (place + digits_value 10 self.now.exponent.now ≡ length self.now.whole.now + 9)
            (place ≡ min (length self.now.whole.now + 9 + digits_value 10 self.now.exponent.now)
            (2 ^ 64 - 1))) }
    {
        let place = self.whole.len() as u64 + PLACES;
        let size = append_digits(0, self.exponent);
        if self.divides {
            place.checked_sub(size)
        } else {
            Some(place.saturating_add(size))
        }
    }

    /// The number that the first digits write, or `u64::MAX` where it is greater.
    fn front(&self, count: usize) -> u64
        requires { count ≤ length self.now.whole.now + length self.now.decimals.now }
        ensures { result ≡ min
            (digits_value 10 (take count (self.now.whole.now ++ self.now.decimals.now)))
            (2 ^ 64 - 1) }
    {
        let of_whole = count.min(self.whole.len());
        let number = append_digits(0, &self.whole[..of_whole]);
        append_digits(number, &self.decimals[..count - of_whole])
    }

    /// The digit at a place.
    fn digit(&self, place: usize) -> u8
        requires { place < length self.now.whole.now + length self.now.decimals.now }
        ensures { result ≡ slice_index (self.now.whole.now ++ self.now.decimals.now) place }
    {
        if place < self.whole.len() {
            self.whole[place]
        } else {
            self.decimals[place - self.whole.len()]
        }
    }
}
