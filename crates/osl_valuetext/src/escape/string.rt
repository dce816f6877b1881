//! A string's bytes.

ghost use Rattle.std.specs.Prelude.{◌≡◌, ◌-◌, true, false, length, take, drop, IfSome, IfNone};
ghost use Rattle.osl_valuetext.specs.declared.escape.Pending.TheVariants.{Nothing};
ghost use Rattle.osl_valuetext.specs.Literals.{inside_at, is_quoted, string_at, text_at};
ghost use Rattle.osl_valuetext.specs.Unread.{Tells};

use super::bytes::step;
use super::{Pending, Step};
use crate::unread::Unread;
use osl_value::Text;
use std::alloc::Global;

/// The bytes that the inside of a string stands for.
fn inside_at(alloc: Global, inside: &[u8]) -> Result<Vec<u8>, Unread>
    ensures { Tells (λ v. v.items) result (inside_at Nothing inside.now) }
{
    let mut bytes = Vec::new(alloc);
    let mut pending = Pending::Nothing;
    for byte in inside {
        match step(pending, *byte) {
            None => return Err(Unread::Misspelled),
            Some(Step::Waits(next)) => pending = next,
            Some(Step::Gives(read)) => {
                bytes.push(read)?;
                pending = Pending::Nothing;
            }
        }
    }
    if pending == Pending::Nothing {
        Ok(bytes)
    } else {
        Err(Unread::Misspelled)
    }
}

/// What is between the quotes of a word, if it has them.
fn between_quotes(word: &[u8]) -> Option<&[u8]>
    ensures some { IfSome result (λ inside. (is_quoted word.now ≡ true) × (inside.now ≡ take (length word.now - 2) (drop 1 word.now))) }
    ensures none { IfNone result (is_quoted word.now ≡ false) }
{
    match word {
        [b'"', inside @ .., b'"'] => Some(inside),
        _ => None,
    }
}

/// The bytes of a string: a word in quotes, in which a byte is written as `write_string` writes it and in no other way.
/// `Misspelled` comes where the word is none.
#[tactic(auto, unfolding(crate::specs::Literals::string_at))]
pub fn read_string(alloc: Global, word: &[u8]) -> Result<Vec<u8>, Unread>
    ensures { Tells (λ v. v.items) result (string_at word.now) }
{
    match between_quotes(word) {
        None => Err(Unread::Misspelled),
        Some(inside) => inside_at(alloc, inside),
    }
}

/// A string of the language, of at most 512 bytes. `Misspelled` comes where the word is no string, or a longer one.
#[tactic(auto, unfolding(crate::specs::Literals::text_at))]
pub fn read_text(alloc: Global, word: &[u8]) -> Result<Text, Unread>
    ensures { Tells (λ text. text) result (text_at word.now) }
{
    let bytes = read_string(alloc, word)?;
    Text::new(bytes).ok_or(Unread::Misspelled)
}
