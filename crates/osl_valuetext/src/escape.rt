//! Strings in quotes, with their escapes.

mod bytes;
mod string;

pub use string::{read_string, read_text};

/// What of an escape has been read.
#[derive(Clone, Copy, Debug, PartialEq, Eq)]
pub(crate) enum Pending {
    Nothing,
    Backslash,
    /// A backslash and a byte.
    OneDigit(u8),
    /// A backslash and two bytes.
    TwoDigits(u8, u8),
}

/// What one more byte gives.
#[derive(Clone, Copy, Debug, PartialEq, Eq)]
pub(crate) enum Step {
    /// More bytes are wanted.
    Waits(Pending),
    /// A byte of the string.
    Gives(u8),
}
