//! A text of code, line by line.

ghost use Rattle.std.specs.Prelude.{◌≡◌, ◌+◌, length};
ghost use Rattle.std.specs.Option.{ForSome, ForNone};

use crate::hints::{Said, saying};
use crate::lines::Lines;
use crate::op_line::{is_code_line, is_end_line};
use osl_value::Memory;
use std::alloc::Global;

/// A text at a line that means something.
#[derive(Drop)]
pub(crate) struct Reader<'a> {
    /// What is after the line.
    lines: Lines<'a>,

    /// The line's number, or none where no line is left.
    number: Option<u32>,

    /// Its words.
    words: Vec<&'a [u8]>,

    ghost here: { ForSome number (λ n. lines.number ≡ n + 1) },
    ghost ended: { ForNone number (length lines.rest.now ≡ 0) },
}

impl<'a> Reader<'a> {
    ghost use Rattle.std.specs.Prelude.{◌≡◌, ◌<◌, ◌-◌, ◌+◌, ◌^◌, ◌==◌, length, option_map, IfSome, IfNone, IfOk, OnOk};
    ghost use Rattle.oso_read.specs.Hints.{saying};
    ghost use Rattle.oso_read.specs.Left.{left, line_after};
    ghost use Rattle.oso_read.specs.OpLine.{is_code_line, is_end_line};
    ghost use Rattle.oso_read.specs.Reading.{begins_body};
    ghost use Rattle.oso_read.specs.Said.{seen};
    ghost use Rattle.osl_valuetext.specs.Scan.{spoken};
    ghost use Rattle.oso_read.specs.Text.{told, told_from, line_count};

    /// A text at its first line.
    pub(crate) fn new(alloc: Global, text: &'a [u8]) -> Result<Reader<'a>, Memory>
        requires { length text.now < 2 ^ 32 - 1 }
        ensures left { IfOk result (λ reader. left reader ≡ told text.now) }
        ensures after { IfOk result (λ reader. line_after reader ≡ line_count text.now + 1) }
    {
        let mut words = Vec::new(alloc);
        let mut lines = Lines {
            rest: text,
            number: 1,
        };
        let number = lines.next(&mut words)?;
        Ok(Reader {
            lines,
            number,
            words,
        })
    }

    /// Goes on to the next line.
    pub(crate) fn advance(&mut self) -> Result<(), Memory>
        ensures left { OnOk result (left self.new ≡ told_from self.old.lines.number self.old.lines.rest.now) }
        ensures after { OnOk result (line_after self.new ≡ line_after self.old) }
    {
        let mut lines = self.lines;
        let number = lines.next(&mut self.words)?;
        self.lines = lines;
        self.number = number;
        Ok(())
    }

    /// The line's number, or none where no line is left.
    pub(crate) fn number(&self) -> Option<u32>
        ensures value { result ≡ self.now.number }
        ensures here { IfSome result (λ n. self.now.lines.number ≡ n + 1) }
        ensures ended { IfNone result (length self.now.lines.rest.now ≡ 0) }
    {
        self.number
    }

    /// The number of the line after the last, after which no text stands.
    pub(crate) fn number_after(&self) -> u32
        requires { length self.now.lines.rest.now ≡ 0 }
        ensures { result ≡ line_after self.now }
    {
        self.lines.number
    }

    /// Whether no text stands after the line.
    pub(crate) fn is_last(&self) -> bool
        ensures { result ≡ (length self.now.lines.rest.now == 0) }
    {
        self.lines.rest.is_empty()
    }

    /// What the line says, if its hints are of their form.
    pub(crate) fn said(&self) -> Option<Said<'_, 'a>>
        ensures { option_map seen result ≡ saying (spoken self.now.words.items) }
    {
        saying(self.words.as_slice())
    }

    /// Whether the line begins a section.
    pub(crate) fn is_code_line(&self) -> bool
        ensures { result ≡ is_code_line (spoken self.now.words.items) }
    {
        is_code_line(self.words.as_slice())
    }

    /// Whether the line ends the code.
    pub(crate) fn is_end_line(&self) -> bool
        ensures { result ≡ is_end_line (spoken self.now.words.items) }
    {
        is_end_line(self.words.as_slice())
    }

    /// Whether the line is the first after the symbols.
    pub(crate) fn begins_body(&self) -> bool
        ensures { result ≡ begins_body (spoken self.now.words.items) }
    {
        self.is_code_line() || self.is_end_line()
    }
}
