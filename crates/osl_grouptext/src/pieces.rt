//! The words and marks of a text.

ghost use Rattle.std.specs.Prelude.{◌≡◌, ◌≤◌, ◌<◌, [], ◌∷◌, ◌++◌, length, filter, OnOk, IfOk};
ghost use Rattle.osl_valuetext.specs.declared.place.Place.TheVariants.{Open};
ghost use Rattle.osl_valuetext.specs.Scan.{spoken};
ghost use Rattle.osl_grouptext.specs.Pieces.{is_blank, is_single, is_double, ends_word, word_end, comment_len, part_len, is_word, pieces, Word, words};

use osl_value::Memory;
use osl_valuetext::Place;
use std::alloc::Global;

/// A space, a tab, or another byte that stands for one.
fn is_blank(byte: u8) -> bool
    ensures { result ≡ is_blank byte }
{
    byte == b' ' || byte == b'\t' || byte == b'\n' || byte == b'\r' || byte == 12
}

/// Whether a byte is a piece of its own: a blank, `;` or `=`.
fn is_single(byte: u8) -> bool
    ensures { result ≡ is_single byte }
{
    is_blank(byte) || byte == b';' || byte == b'='
}

/// Whether a byte and those after it begin with `[[` or `]]`.
fn is_double(byte: u8, rest: &[u8]) -> bool
    ensures { result ≡ is_double byte rest.now }
{
    match rest {
        [] => false,
        [next, ..] => (byte == b'[' || byte == b']') && *next == byte,
    }
}

/// Whether a byte outside strings ends a word.
fn ends_word(byte: u8, rest: &[u8]) -> bool
    ensures { result ≡ ends_word byte rest.now }
{
    is_single(byte) || is_double(byte, rest) || byte == b'#'
}

/// How many bytes the word at the front has.
fn word_len(text: &[u8]) -> usize
    ensures value { result ≡ word_end Open 0 text.now }
    ensures within { result ≤ length text.now }
{
    let mut place = Place::Open;
    let mut len: usize = 0;
    let mut rest = text;
    while let [byte, others @ ..] = rest {
        if place.is_open() && ends_word(*byte, others) {
            return len;
        }
        place = place.next(*byte);
        len += 1;
        rest = others;
    }
    len
}

/// How many bytes a comment has after its first.
fn comment_len(text: &[u8]) -> usize
    ensures value { result ≡ comment_len text.now }
    ensures within { result ≤ length text.now }
{
    let mut len: usize = 0;
    let mut rest = text;
    while let [byte, others @ ..] = rest {
        if *byte == b'\n' {
            return len + 1;
        }
        len += 1;
        rest = others;
    }
    len
}

/// How many bytes the mark, the blank or the comment at the front has.
fn part_len(text: &[u8]) -> usize
    ensures value { result ≡ part_len text.now }
    ensures within { result ≤ length text.now }
    ensures some { 0 < length text.now → 0 < result }
{
    match text {
        [] => 0,
        [byte, rest @ ..] => {
            if is_single(*byte) {
                1
            } else if is_double(*byte, rest) {
                2
            } else {
                1 + comment_len(rest)
            }
        }
    }
}

/// Whether a piece is a word or a mark.
fn is_word(piece: &[u8]) -> bool
    ensures { result ≡ is_word piece.now }
{
    match piece {
        [] => false,
        [byte, ..] => !(is_blank(*byte) || *byte == b'#'),
    }
}

/// Appends a piece, if it is a word or a mark.
fn push_word<'a>(piece: &'a [u8], into: &mut Vec<&'a [u8]>) -> Result<(), Memory>
    ensures { OnOk result (spoken into.new.items ≡ spoken into.old.items ++ filter is_word (piece.now ∷ [])) }
{
    if is_word(piece) {
        into.push(piece)?;
    }
    Ok(())
}

/// Appends the words and marks of a text.
fn push_words<'a>(text: &'a [u8], into: &mut Vec<&'a [u8]>) -> Result<(), Memory>
    ensures { OnOk result (spoken into.new.items ≡ spoken into.old.items ++ filter is_word (pieces (Word Open) text.now)) }
{
    let mut rest = text;
    loop {
        let (word, behind) = rest.split_at(word_len(rest));
        push_word(word, into)?;
        if behind.is_empty() {
            return Ok(());
        }
        let (part, more) = behind.split_at(part_len(behind));
        push_word(part, into)?;
        rest = more;
    }
}

/// The words and marks of a text.
#[tactic(auto, unfolding(crate::specs::Pieces::words))]
pub(crate) fn words<'a>(alloc: Global, text: &'a [u8]) -> Result<Vec<&'a [u8]>, Memory>
    ensures value { IfOk result (λ found. spoken found.items ≡ words text.now) }
    ensures few { IfOk result (λ found. length found.items ≤ length text.now) }
{
    let mut found = Vec::new(alloc);
    push_words(text, &mut found)?;
    Ok(found)
}
