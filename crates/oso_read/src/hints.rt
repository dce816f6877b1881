//! What a line says: its words, and after them its hints.

ghost use Rattle.std.specs.Prelude.{◌≡◌, ◌≤◌, ◌==◌, [], ◌∷◌, ◌++◌, length, drop, filter, take_while, option_map, OnOk, IfOk};
ghost use Rattle.std.specs.List.{list_all, prefix_len};
ghost use Rattle.oso_code.specs.Names.{continues_name};
ghost use Rattle.osl_valuetext.specs.declared.place.Place.TheVariants.{Braced};
ghost use Rattle.oso_read.specs.Hints.{begins_hint, hint_name, closes, is_braced, is_hint, is_datum, word_count, saying};
ghost use Rattle.osl_valuetext.specs.Scan.{spoken};
ghost use Rattle.oso_read.specs.Said.{seen};

use osl_value::Memory;
use osl_valuetext::Place;
use oso_code::name::{continues_name, is_name};
use std::alloc::Global;

/// A line's words, and the hints after them, of which those named `meta` are its metadata.
#[derive(Clone, Copy)]
pub(crate) struct Said<'w, 'a> {
    pub(crate) words: &'w [&'a [u8]],
    pub(crate) hints: &'w [&'a [u8]],
}

fn begins_hint(word: &[u8]) -> bool
    ensures { result ≡ begins_hint word.now }
{
    matches!(word, [b'%', ..])
}

fn name_len(text: &[u8]) -> usize
    ensures value { result ≡ prefix_len continues_name text.now }
    ensures within { result ≤ length text.now }
{
    text.iter()
        .take_while(|byte| continues_name(**byte))
        .count()
}

/// The bytes at the front that a name may have.
fn name_front(text: &[u8]) -> &[u8]
    ensures { result.now ≡ take_while continues_name text.now }
{
    &text[..name_len(text)]
}

/// What is after the first byte.
fn behind_first(word: &[u8]) -> &[u8]
    ensures { result.now ≡ drop 1 word.now }
{
    match word {
        [] => &[],
        [_, rest @ ..] => rest,
    }
}

/// Whether the first `}` outside strings is the last byte.
fn closes(inside: &[u8]) -> bool
    ensures { result ≡ closes Braced inside.now }
{
    let mut place = Place::Braced;
    for (at, byte) in inside.iter().enumerate() {
        place = place.next(*byte);
        if place.is_open() {
            return at + 1 == inside.len();
        }
    }
    false
}

fn is_braced(text: &[u8]) -> bool
    ensures { result ≡ is_braced text.now }
{
    match text {
        [b'{', inside @ ..] => closes(inside),
        _ => false,
    }
}

/// Whether a word is `%`, a name and braces.
#[tactic(auto, unfolding(crate::specs::Hints::is_hint))]
fn is_hint(word: &[u8]) -> bool
    ensures { result ≡ is_hint word.now }
{
    let behind = behind_first(word);
    let name = name_front(behind);
    begins_hint(word) && is_name(name) && is_braced(&behind[name.len()..])
}

/// Whether a hint is a datum of metadata.
pub(crate) fn is_datum(word: &[u8]) -> bool
    ensures { result ≡ is_datum word.now }
{
    name_front(behind_first(word)) == b"meta".as_slice()
}

/// How many words stand before the first hint.
fn word_count(line: &[&[u8]]) -> usize
    ensures count { result ≡ word_count (spoken line.now) }
    ensures within { result ≤ length line.now }
{
    for (at, word) in line.iter().enumerate() {
        if begins_hint(word) {
            return at;
        }
    }
    line.len()
}

fn are_hints(words: &[&[u8]]) -> bool
    ensures { result ≡ list_all is_hint (spoken words.now) }
{
    for word in words {
        if !is_hint(word) {
            return false;
        }
    }
    true
}

/// What a line says, if its hints stand at its end and are of their form.
#[tactic(auto, unfolding(crate::specs::Hints::saying))]
pub(crate) fn saying<'w, 'a>(line: &'w [&'a [u8]]) -> Option<Said<'w, 'a>>
    ensures { option_map seen result ≡ saying (spoken line.now) }
{
    let (words, hints) = line.split_at(word_count(line));
    are_hints(hints).then_some(Said { words, hints })
}

/// Whether a line has no metadata.
pub(crate) fn lacks_metadata(said: Said) -> bool
    ensures { result ≡ (length (filter is_datum (spoken said.entry.hints.now)) == 0) }
{
    for hint in said.hints {
        if is_datum(hint) {
            return false;
        }
    }
    true
}

/// Puts a hint after others, if it is a datum.
fn push_datum<'a>(hint: &'a [u8], into: &mut Vec<&'a [u8]>) -> Result<(), Memory>
    ensures { OnOk result (spoken into.new.items ≡ spoken into.old.items ++ filter is_datum (hint.now ∷ [])) }
{
    if is_datum(hint) {
        into.push(hint)?;
    }
    Ok(())
}

/// The data among hints.
pub(crate) fn data_of<'a>(alloc: Global, hints: &[&'a [u8]]) -> Result<Vec<&'a [u8]>, Memory>
    ensures { IfOk result (λ found. spoken found.items ≡ filter is_datum (spoken hints.now)) }
{
    let mut found = Vec::new(alloc);
    for hint in hints {
        push_datum(hint, &mut found)?;
    }
    Ok(found)
}
