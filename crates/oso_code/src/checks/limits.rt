//! The limits of code.

ghost use Rattle.std.specs.Prelude.{◌≡◌, ◌&&◌, nat_le, length};
ghost use Rattle.oso_code.specs.Valid.{slots_of, most_slots, most_symbols, most_ops};

use crate::symbol::Symbol;

/// The most ops.
pub const MOST_OPS: usize = 65536;

/// The most symbols.
pub const MOST_SYMBOLS: usize = 65536;

/// The most slots of all symbols.
pub const MOST_SLOTS: u64 = 65536;

/// Whether the symbols have no more slots than the limit.
pub fn fits_slots(symbols: &[Symbol]) -> bool
    ensures { result ≡ nat_le (slots_of symbols.now) most_slots }
{
    let mut total = 0;
    for symbol in symbols {
        total += symbol.ty.slot_count();
        if total > MOST_SLOTS {
            return false;
        }
    }
    true
}

/// Whether so many ops, and these symbols, are within the limits.
pub fn fits_counts(symbols: &[Symbol], ops: usize) -> bool
    ensures { result ≡ (nat_le (length symbols.now) most_symbols && nat_le ops most_ops) && nat_le (slots_of symbols.now) most_slots }
{
    symbols.len() <= MOST_SYMBOLS && ops <= MOST_OPS && fits_slots(symbols)
}
