//! Words that are jumps.

ghost use Rattle.std.specs.Prelude.{map};
ghost use Rattle.osl_valuetext.specs.Literals.{each, decimal_at};
ghost use Rattle.osl_valuetext.specs.Scan.{spoken};
ghost use Rattle.osl_valuetext.specs.Unread.{Tells};

use osl_valuetext::{Unread, read_decimal};
use std::alloc::Global;

/// The numbers below 2^32 of which these are the texts.
pub(crate) fn decimals_at(alloc: Global, words: &[&[u8]]) -> Result<Vec<u32>, Unread>
    ensures { Tells (λ v. v.items) result (each decimal_at (spoken words.now)) }
{
    let mut numbers = Vec::new(alloc);
    for word in words {
        let Some(number) = read_decimal(word) else {
            return Err(Unread::Misspelled);
        };
        numbers.push(number)?;
    }
    Ok(numbers)
}
