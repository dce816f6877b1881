//! The lines of a text, one after another.

ghost use Rattle.std.specs.Prelude.{◌≡◌, ◌+◌, ◌<◌, ◌≤◌, ◌^◌, ◌==◌, ◌∷◌, [], length, take, drop, if◌then◌else◌, option_map, position, OnOk, IfOk, IfNone, IfSome, MatchOption};
ghost use Rattle.std.specs.Str.Lines.{lines, strip_carriage_return};
ghost use Rattle.oso_read.specs.Text.{means, told_from, Numbered};
ghost use Rattle.osl_valuetext.specs.Scan.{spoken};
ghost use Rattle.oso_read.specs.Spelt.{is_line_feed};

use osl_value::Memory;
use osl_valuetext::split_words;

/// The text that is left, and the number of its first line.
#[derive(Clone, Copy, Debug)]
pub(crate) struct Lines<'a> {
    pub(crate) rest: &'a [u8],
    pub(crate) number: u32,
    ghost few: { number + length rest.now < 2 ^ 32 },
}

fn line_feed(text: &[u8]) -> Option<usize>
    ensures { result ≡ position is_line_feed text.now }
{
    text.iter().position(|byte| *byte == b'\n')
}

/// A line without the carriage return before its line feed.
fn without_carriage_return(line: &[u8]) -> &[u8]
    ensures { result.now ≡ strip_carriage_return line.now }
{
    match line {
        [front @ .., b'\r'] => front,
        _ => line,
    }
}

/// The first line of a text, and what is after it.
fn first_line(text: &[u8]) -> (&[u8], &[u8])
    requires { 0 < length text.now }
    ensures lines { lines text.now ≡ result.0.now ∷ lines result.1.now }
    ensures shorter { length result.1.now < length text.now }
{
    match line_feed(text) {
        Some(at) => (without_carriage_return(&text[..at]), &text[at + 1..]),
        None => (text, &[]),
    }
}

/// Whether a line means something.
fn means(line: &[&[u8]]) -> bool
    ensures { result ≡ means (spoken line.now) }
{
    match line {
        [] => false,
        [first, ..] => !matches!(first, [b'#', ..]),
    }
}

impl<'a> Lines<'a> {
    /// Goes to the next line that means something, and gives its number and its words, if there is
    /// one.
    pub(crate) fn next(&mut self, into: &mut Vec<&'a [u8]>) -> Result<Option<u32>, Memory>
        ensures found { IfOk result (λ number. MatchOption number
            (told_from self.old.number self.old.rest.now ≡ [])
            (λ n. told_from self.old.number self.old.rest.now
            ≡ record { number = n; line = spoken into.new.items }
            ∷ told_from self.new.number self.new.rest.now)) }
        ensures counted { self.new.number + length (lines self.new.rest.now) ≡ self.old.number + length (lines self.old.rest.now) }
        ensures here { IfOk result (λ number. IfSome number (λ n. self.new.number ≡ n + 1)) }
        ensures ended { IfOk result (λ number. IfNone number (length self.new.rest.now ≡ 0)) }
    {
        while !self.rest.is_empty() {
            let (line, rest) = first_line(self.rest);
            let number = self.number;
            *self = Lines {
                rest,
                number: number + 1,
            };
            split_words(line, into)?;
            if means(into.as_slice()) {
                return Ok(Some(number));
            }
        }
        Ok(None)
    }
}
