//! The decimal texts of numbers, both ways and exact: a float or an int read from its text, and a
//! number's one canonical text appended to a list of bytes.
//!
//! A text is seen as its bytes, a float as its units. `specs/Decimal.antt` says which texts are
//! numbers and which number each writes, `specs/Canonical.antt` which text of a number is canonical,
//! and the contracts of `laws` what ties the two together.
#![tactic(auto)]

mod decimal;
mod digits;
pub mod laws;
mod read;
mod write;

pub use read::{read_canonical_fx, read_canonical_int, read_fx, read_int};
pub use write::{write_fx, write_int};
