//! The piece of a source that begins at a place.

ghost use Rattle.std.specs.Prelude.{◌≡◌, ◌==◌, ◌&&◌, not, ◌+◌, ◌<◌, ◌≤◌, length, true, ◌↔◌, slice_index, IsTrue};
ghost use Rattle.osl_tree.specs.Lexical.{is_blank, BeginsLine};
ghost use Rattle.osl_lex.specs.Pieces.{StandsAt};
ghost use Rattle.osl_lex.specs.Scan.{begins_number};

use crate::bytes::{begins_word, byte_at, is_blank};
use crate::mark::longest_mark;
use crate::number::number_of;
use crate::scan::{comment_end, line_len, number_len, string_end, word_len};
use osl_tree::{LexKind, TokenKind};

/// What stands at a place of a source, with the place where it ends.
#[derive(Clone, Copy, Debug, PartialEq, Eq)]
pub(crate) enum Piece {
    /// A blank or a comment.
    Gap(usize),
    Token(TokenKind, usize),
}

/// The piece that begins at a place, or the fault there.
pub(crate) fn piece_at(source: &[u8], at: usize) -> Result<Piece, LexKind>
    requires { at < length source.now }
    ensures { StandsAt source.now at result }
{
    let rest = &source[at..];
    let first = byte_at(rest, 0);
    let second = byte_at(rest, 1);
    if is_blank(first) {
        Ok(Piece::Gap(at + 1))
    } else if first == b'/' && second == b'/' {
        Ok(Piece::Gap(at + line_len(rest)))
    } else if first == b'/' && second == b'*' {
        block_comment_at(source, at)
    } else if first == b'"' {
        string_at(source, at)
    } else if begins_word(first) {
        Ok(Piece::Token(TokenKind::Word, at + word_len(rest)))
    } else if begins_number(first, second) {
        number_at(source, at)
    } else if let Some((mark, len)) = longest_mark(rest) {
        Ok(Piece::Token(TokenKind::Punct(mark), at + len))
    } else if first == b'#' && begins_line(source, at) {
        Err(LexKind::Directive)
    } else {
        Err(LexKind::BadByte)
    }
}

/// A digit, or a point and a digit.
fn begins_number(first: u8, second: u8) -> bool
    ensures { result ≡ begins_number first second }
{
    first.is_ascii_digit() || first == b'.' && second.is_ascii_digit()
}

/// The block comment whose `/*` stands at a place.
fn block_comment_at(source: &[u8], at: usize) -> Result<Piece, LexKind>
    requires first { slice_index source.now at ≡ 47 }
    requires second { slice_index source.now (at + 1) ≡ 42 }
    requires within { at + 1 < length source.now }
    ensures { StandsAt source.now at result }
{
    match comment_end(&source[at + 2..]) {
        Some(len) => Ok(Piece::Gap(at + 2 + len)),
        None => Err(LexKind::OpenComment),
    }
}

/// The string whose quote stands at a place.
fn string_at(source: &[u8], at: usize) -> Result<Piece, LexKind>
    requires first { slice_index source.now at ≡ 34 }
    requires within { at < length source.now }
    ensures { StandsAt source.now at result }
{
    match string_end(&source[at + 1..]) {
        Some(len) => Ok(Piece::Token(TokenKind::Str, at + 1 + len)),
        None => Err(LexKind::OpenString),
    }
}

/// The number that begins at a place.
fn number_at(source: &[u8], at: usize) -> Result<Piece, LexKind>
    requires begins { begins_number (slice_index source.now at) (slice_index source.now (at + 1)) ≡ true }
    requires within { at < length source.now }
    ensures { StandsAt source.now at result }
{
    let rest = &source[at..];
    let len = number_len(rest);
    match number_of(&rest[..len]) {
        Some(kind) => Ok(Piece::Token(kind, at + len)),
        None => Err(LexKind::BadNumber),
    }
}

/// Whether nothing but blanks stands before a place on its line.
fn begins_line(source: &[u8], at: usize) -> bool
    requires { at ≤ length source.now }
    ensures { IsTrue result ↔ BeginsLine source.now at }
{
    let mut line = at;
    while line > 0 && is_indent(source[line - 1]) {
        line -= 1;
    }
    line == 0 || source[line - 1] == b'\n'
}

/// A blank that does not end its line.
fn is_indent(byte: u8) -> bool
    ensures { result ≡ (is_blank byte && not (byte == 10)) }
{
    is_blank(byte) && byte != b'\n'
}
