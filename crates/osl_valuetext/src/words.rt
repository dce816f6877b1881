//! The words of a line, and the fields of a word.

ghost use Rattle.std.specs.Prelude.{◌≡◌, ◌≤◌, [], ◌∷◌, ◌++◌, length, filter, OnOk};
ghost use Rattle.osl_valuetext.specs.declared.place.Place.TheVariants.{Open};
ghost use Rattle.osl_valuetext.specs.Splitting.{pieces, words};
ghost use Rattle.osl_valuetext.specs.Scan.{parts, piece_end, keeps, spoken};

use crate::place::Place;
use osl_value::Memory;

/// The bytes that part a text outside strings and braces.
#[derive(Clone, Copy, Debug, PartialEq, Eq)]
pub enum Parting {
    /// Spaces and tabs, which part the words of a line.
    Blanks,
    /// Commas, which part the fields of a word.
    Commas,
}

/// Whether a byte parts.
fn parts(parting: Parting, byte: u8) -> bool
    ensures { result ≡ parts parting byte }
{
    match parting {
        Parting::Blanks => byte == b' ' || byte == b'\t',
        Parting::Commas => byte == b',',
    }
}

/// How many bytes the piece at the front has.
fn piece_len(parting: Parting, text: &[u8]) -> usize
    ensures value { result ≡ piece_end (parts parting) Open 0 text.now }
    ensures within { result ≤ length text.now }
{
    let mut place = Place::Open;
    for (at, byte) in text.iter().enumerate() {
        if place.is_open() && parts(parting, *byte) {
            return at;
        }
        place = place.next(*byte);
    }
    text.len()
}

/// Whether a piece counts: a word has bytes, and a field may be empty.
fn keeps(parting: Parting, piece: &[u8]) -> bool
    ensures { result ≡ keeps parting piece.now }
{
    match parting {
        Parting::Blanks => !piece.is_empty(),
        Parting::Commas => true,
    }
}

/// Appends a piece, if it counts.
fn push_piece<'a>(parting: Parting, piece: &'a [u8], into: &mut Vec<&'a [u8]>) -> Result<(), Memory>
    ensures { OnOk result (spoken into.new.items
        ≡ spoken into.old.items ++ filter (keeps parting) (piece.now ∷ [])) }
{
    if keeps(parting, piece) {
        into.push(piece)?;
    }
    Ok(())
}

/// Appends the words or the fields of a text: its pieces between the bytes that part it, outside strings and braces. Words
/// without bytes are left out.
pub fn split<'a>(parting: Parting, text: &'a [u8], into: &mut Vec<&'a [u8]>) -> Result<(), Memory>
    ensures { OnOk result (spoken into.new.items
        ≡ spoken into.old.items ++ filter (keeps parting) (pieces (parts parting) Open text.now)) }
{
    let mut rest = text;
    loop {
        let len = piece_len(parting, rest);
        push_piece(parting, &rest[..len], into)?;
        if len == rest.len() {
            return Ok(());
        }
        rest = &rest[len + 1..];
    }
}

/// Makes a list that of the words of a line: its pieces between blanks, outside strings and braces.
#[tactic(auto, unfolding(crate::specs::Splitting::words))]
pub fn split_words<'a>(line: &'a [u8], into: &mut Vec<&'a [u8]>) -> Result<(), Memory>
    ensures { OnOk result (spoken into.new.items ≡ words line.now) }
{
    into.clear();
    split(Parting::Blanks, line, into)
}
