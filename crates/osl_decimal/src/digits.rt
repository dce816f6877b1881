ghost use Rattle.std.specs.Prelude.{◌≡◌, ◌+◌, ◌-◌, ◌*◌, ◌^◌, ◌<◌, ◌≤◌, min, true, length, slice_index};
ghost use Rattle.std.specs.Str.Parse.{digits_value_after};
ghost use Rattle.osl_decimal.specs.Decimal.{are_digits, is_numeral, has_minus, without_minus};

/// The minus in front of a text, if there is one, and what is after it.
pub(crate) fn split_minus(text: &[u8]) -> (bool, &[u8])
    ensures minus { result.0 ≡ has_minus text.now }
    ensures rest { result.1.now ≡ without_minus text.now }
{
    match text {
        [b'-', rest @ ..] => (true, rest),
        _ => (false, text),
    }
}

pub(crate) fn are_digits(text: &[u8]) -> bool
    ensures { result ≡ are_digits text.now }
{
    text.iter().all(u8::is_ascii_digit)
}

pub(crate) fn is_numeral(text: &[u8]) -> bool
    ensures { result ≡ is_numeral text.now }
{
    !text.is_empty() && are_digits(text)
}

/// The number that the digits write after those of `number`, or `u64::MAX` where it is greater.
pub(crate) fn append_digits(mut number: u64, digits: &[u8]) -> u64
    requires { are_digits digits.now ≡ true }
    ensures { result ≡ min (digits_value_after 10 number digits.now) (2 ^ 64 - 1) }
{
    for digit in digits {
        let value = u64::from(*digit - b'0');
        number = number.saturating_mul(10).saturating_add(value);
    }
    number
}

/// A power of ten, or `u64::MAX` where it is greater.
pub(crate) fn power_of_ten(exponent: u64) -> u64
    ensures { result ≡ min (10 ^ exponent) (2 ^ 64 - 1) }
{
    10u64
        .checked_pow(exponent.min(20) as u32)
        .unwrap_or(u64::MAX)
}
