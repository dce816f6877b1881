//! Names in a group's text.

ghost use Rattle.std.specs.Prelude.{◌≡◌, ◌≤◌, is_some, length};
ghost use Rattle.std.specs.List.{before_first, after_first, position_or_len};
ghost use Rattle.osl_job.specs.GroupText as spec;
ghost use Rattle.osl_job.specs.Text.{is_point};

use crate::text::{begins_word, is_word_byte};

/// The longest name, in bytes.
const LONGEST_NAME: usize = 255;

/// Whether a piece of a text may name something.
pub fn is_name(text: &[u8]) -> bool
    ensures { result ≡ is_some (spec.name text.now) }
{
    is_word(text) && text.len() <= LONGEST_NAME
}

/// A letter or `_`, and then letters, digits and `_`.
fn is_word(text: &[u8]) -> bool
    ensures { result ≡ spec.is_word text.now }
{
    match text {
        [] => false,
        [first, rest @ ..] => begins_word(*first) && are_word_bytes(rest),
    }
}

fn are_word_bytes(text: &[u8]) -> bool
    ensures { result ≡ spec.are_word_bytes text.now }
{
    text.iter().all(|byte| is_word_byte(*byte))
}

/// What stands before the first point, and what behind it.
pub fn split_point(text: &[u8]) -> (&[u8], &[u8])
    ensures before { result.0.now ≡ before_first is_point text.now }
    ensures after { result.1.now ≡ after_first is_point text.now }
{
    let at = point_place(text);
    (&text[..at], &text[(at + 1).min(text.len())..])
}

/// The place of the first point, or the length.
fn point_place(text: &[u8]) -> usize
    ensures place { result ≡ position_or_len is_point text.now }
    ensures within { result ≤ length text.now }
{
    for (at, byte) in text.iter().enumerate() {
        if *byte == b'.' {
            return at;
        }
    }
    text.len()
}
