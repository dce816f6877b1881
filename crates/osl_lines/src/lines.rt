//! The lines of a text, one after another.

ghost use Rattle.std.specs.Prelude.{◌≡◌, ◌+◌, ◌<◌, ◌^◌, ◌∷◌, length, position, OnOk};
ghost use Rattle.std.specs.Str.Lines.{lines, strip_carriage_return};
ghost use Rattle.osl_valuetext.specs.Scan.{spoken};
ghost use Rattle.osl_lines.specs.Lines.{is_line_feed, line_words, means};

use crate::comment::{Comments, uncommented};
use osl_value::Memory;
use osl_valuetext::split_words;

fn line_feed(text: &[u8]) -> Option<usize>
    ensures { result ≡ position is_line_feed text.now }
{
    text.iter().position(|byte| *byte == b'\n')
}

/// A line without the carriage return before its line feed.
fn without_carriage_return(line: &[u8]) -> &[u8]
    ensures { result.now ≡ strip_carriage_return line.now }
{
    match line {
        [front @ .., b'\r'] => front,
        _ => line,
    }
}

/// The first line of a text, and what is after it.
pub fn first_line(text: &[u8]) -> (&[u8], &[u8])
    requires { 0 < length text.now }
    ensures lines { lines text.now ≡ result.0.now ∷ lines result.1.now }
    ensures shorter { length result.1.now < length text.now }
{
    match line_feed(text) {
        Some(at) => (without_carriage_return(&text[..at]), &text[at + 1..]),
        None => (text, &[]),
    }
}

/// Makes a list that of the words of a line.
fn split_line<'a>(
    comments: Comments,
    line: &'a [u8],
    into: &mut Vec<&'a [u8]>,
) -> Result<(), Memory>
    ensures { OnOk result (spoken into.new.items ≡ line_words comments line.now) }
{
    match comments {
        Comments::WholeLines => split_words(line, into),
        Comments::Anywhere => split_words(uncommented(line), into),
    }
}

/// Whether a line means something.
fn means(line: &[&[u8]]) -> bool
    ensures { result ≡ means (spoken line.now) }
{
    match line {
        [] => false,
        [first, ..] => !matches!(first, [b'#', ..]),
    }
}

/// The text that is left, and the number of its first line.
#[derive(Clone, Copy, Debug)]
pub struct Lines<'a> {
    pub rest: &'a [u8],
    pub number: u32,
    ghost few: { number + length rest.now < 2 ^ 32 },
}

impl<'a> Lines<'a> {
    ghost use Rattle.std.specs.Prelude.{◌≡◌, ◌-◌, ◌+◌, ◌<◌, ◌^◌, ◌∷◌, [], length, IfOk, IfNone, IfSome, MatchOption};
    ghost use Rattle.std.specs.Str.Lines.{lines};
    ghost use Rattle.osl_lines.specs.Lines.{meant_from, Numbered};
    ghost use Rattle.osl_valuetext.specs.Scan.{spoken};

    /// A text at its first line.
    pub fn new(text: &'a [u8]) -> Lines<'a>
        requires { length text.now < 2 ^ 32 - 1 }
        ensures rest { result.rest.now ≡ text.now }
        ensures first { result.number ≡ 1 }
    {
        Lines {
            rest: text,
            number: 1,
        }
    }

    /// Goes to the next line that means something, and gives its number and its words, if there is one.
    pub fn next(
        &mut self,
        comments: Comments,
        into: &mut Vec<&'a [u8]>,
    ) -> Result<Option<u32>, Memory>
        ensures found { IfOk result (λ number. MatchOption number
            (meant_from comments self.old.number self.old.rest.now ≡ [])
            (λ n. meant_from comments self.old.number self.old.rest.now
            ≡ record { number = n; line = spoken into.new.items }
            ∷ meant_from comments self.new.number self.new.rest.now)) }
        ensures counted { self.new.number + length (lines self.new.rest.now) ≡ self.old.number + length (lines self.old.rest.now) }
        ensures here { IfOk result (λ number. IfSome number (λ n. self.new.number ≡ n + 1)) }
        ensures ended { IfOk result (λ number. IfNone number (length self.new.rest.now ≡ 0)) }
    {
        while !self.rest.is_empty() {
            let (line, rest) = first_line(self.rest);
            let number = self.number;
            *self = Lines {
                rest,
                number: number + 1,
            };
            split_line(comments, line, into)?;
            if means(into.as_slice()) {
                return Ok(Some(number));
            }
        }
        Ok(None)
    }
}
