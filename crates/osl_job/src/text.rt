ghost use Rattle.std.specs.Prelude.{◌≡◌, ◌≤◌, ◌<◌, true, length, IsTrue, Some};
ghost use Rattle.std.specs.Option.{option_map};
ghost use Rattle.osl_job.specs.Text as spec;
ghost use Rattle.osl_job.specs.Reader as reader;
ghost use Rattle.osl_job.specs.Reader.{Reads};

use osl_value::Memory;
use std::alloc::AllocError;
use std::marker::Model;

/// Why a reading stops.
#[derive(Clone, Copy, Debug, PartialEq, Eq)]
pub enum ReadStop {
    /// The text is not of a form that is built today.
    NotBuilt,
    Memory,
}

impl From<AllocError> for ReadStop {
    ghost use Rattle.std.specs.Prelude.{◌≡◌};
    ghost use Rattle.osl_job.specs.declared.text.ReadStop.{ReadStop};
    ghost use Rattle.osl_job.specs.declared.text.ReadStop.TheVariants as stops;

    ghost from_gives = { λ _ stop. stop ≡ stops.Memory };

    fn from(_error: AllocError) -> ReadStop {
        ReadStop::Memory
    }
}

impl From<Memory> for ReadStop {
    ghost use Rattle.std.specs.Prelude.{◌≡◌};
    ghost use Rattle.osl_job.specs.declared.text.ReadStop.{ReadStop};
    ghost use Rattle.osl_job.specs.declared.text.ReadStop.TheVariants as stops;

    ghost from_gives = { λ _ stop. stop ≡ stops.Memory };

    fn from(_memory: Memory) -> ReadStop {
        ReadStop::Memory
    }
}

/// The kinds of texts.
#[derive(Clone, Copy, Debug, PartialEq, Eq)]
pub enum TextForm {
    Group,
    Points,
}

/// What a byte of a text is for.
#[derive(Clone, Copy, Debug, PartialEq, Eq)]
pub enum Class {
    /// It parts pieces.
    Blank,
    /// It begins a comment, up to the line's end.
    Comment,
    /// It stands in a piece.
    Joined,
    /// It is a mark.
    Alone,
}

impl Class {
    fn is_joined(self) -> bool
        ensures { result ≡ spec.is_joined self }
    {
        match self {
            Class::Joined => true,
            Class::Blank | Class::Comment | Class::Alone => false,
        }
    }
}

pub fn is_digit(byte: u8) -> bool
    ensures { result ≡ spec.is_digit byte }
{
    byte.is_ascii_digit()
}

/// A letter or `_`.
pub fn begins_word(byte: u8) -> bool
    ensures { result ≡ spec.begins_word byte }
{
    matches!(byte, b'a'..=b'z' | b'A'..=b'Z' | b'_')
}

pub fn is_word_byte(byte: u8) -> bool
    ensures { result ≡ spec.is_word_byte byte }
{
    begins_word(byte) || is_digit(byte)
}

fn is_blank(byte: u8) -> bool
    ensures { result ≡ spec.is_blank byte }
{
    matches!(byte, b' ' | b'\t' | b'\n' | b'\r' | 12)
}

fn group_class(byte: u8) -> Class
    ensures { result ≡ spec.group_class byte }
{
    if is_blank(byte) {
        Class::Blank
    } else if byte == b'#' {
        Class::Comment
    } else if byte == b';' {
        Class::Alone
    } else {
        Class::Joined
    }
}

fn ends_line(after: &[u8]) -> bool
    ensures { result ≡ spec.ends_line after.now }
{
    match after {
        [] => false,
        [first, ..] => *first == b'\n',
    }
}

fn point_class(byte: u8, after: &[u8]) -> Class
    ensures { result ≡ spec.point_class byte after.now }
{
    if byte == b' ' || byte == b'\t' || byte == b'\n' || byte == b'\r' && ends_line(after) {
        Class::Blank
    } else if byte == b'#' {
        Class::Comment
    } else {
        Class::Joined
    }
}

impl TextForm {
    /// What a byte is for, with what stands behind it.
    fn class_of(self, byte: u8, after: &[u8]) -> Class
        ensures { result ≡ spec.class_of self byte after.now }
    {
        match self {
            TextForm::Group => group_class(byte),
            TextForm::Points => point_class(byte, after),
        }
    }
}

/// The text from its first piece or mark on.
fn past_blanks(form: TextForm, text: &[u8]) -> &[u8]
    ensures same { spec.lexemes form result.now ≡ spec.lexemes form text.now }
    ensures starts { spec.begins form result.now ≡ true }
{
    let mut in_comment = false;
    for (at, byte) in text.iter().enumerate() {
        if in_comment {
            in_comment = *byte != b'\n';
        } else {
            match form.class_of(*byte, &text[at + 1..]) {
                Class::Blank => {}
                Class::Comment => in_comment = true,
                Class::Joined | Class::Alone => return &text[at..],
            }
        }
    }
    &[]
}

/// How many bytes stand together at the front.
fn joined_len(form: TextForm, text: &[u8]) -> usize
    ensures count { result ≡ spec.joined_len form text.now }
    ensures within { result ≤ length text.now }
{
    for (at, byte) in text.iter().enumerate() {
        if !form.class_of(*byte, &text[at + 1..]).is_joined() {
            return at;
        }
    }
    text.len()
}

/// A text, seen as the list of pieces and marks that it is cut into. It stands at the first of them.
#[derive(Drop)]
pub struct Text<'a> {
    form: TextForm,
    rest: &'a [u8],
}

impl<'a> Model for Text<'a> {
    ghost use Rattle.std.specs.Prelude.{List, ◌≡◌, true};
    ghost use Rattle.osl_job.specs.Text.{Lexeme, lexemes, begins};

    ghost Value = { List Lexeme };

    ghost view = { λ t. lexemes t.form t.rest.now };

    ghost invariant = { λ t. begins t.form t.rest.now ≡ true };
}

impl<'a> Text<'a> {
    pub fn new(form: TextForm, text: &'a [u8]) -> Text<'a>
        ensures { result ≡ spec.lexemes form text.now }
    {
        Text {
            form,
            rest: past_blanks(form, text),
        }
    }

    pub fn is_end(&self) -> bool
        ensures { result ≡ reader.is_end self.now }
    {
        self.rest.is_empty()
    }

    /// The piece that comes next.
    pub fn first_piece(&self) -> Option<&'a [u8]>
        ensures { option_map (λ t. t.now) result ≡ reader.piece_of self.now }
    {
        let count = joined_len(self.form, self.rest);
        if count == 0 {
            None
        } else {
            Some(&self.rest[..count])
        }
    }

    /// The mark that comes next.
    pub fn first_mark(&self) -> Option<u8>
        ensures { result ≡ reader.mark_of self.now }
    {
        if joined_len(self.form, self.rest) == 0 {
            self.rest.first().copied()
        } else {
            None
        }
    }

    /// Goes past what comes next.
    pub fn skip(&mut self)
        ensures { self.new ≡ reader.rest self.old }
    {
        let count = joined_len(self.form, self.rest).max(1);
        let count = count.min(self.rest.len());
        self.rest = past_blanks(self.form, &self.rest[count..]);
    }

    #[tactic(auto, unfolding(crate::specs::Reader::sees_word))]
    fn sees_word(&self, text: &[u8]) -> bool
        ensures { result ≡ reader.sees_word text.now self.now }
    {
        match self.first_piece() {
            Some(piece) => piece == text,
            None => false,
        }
    }

    #[tactic(auto, unfolding(crate::specs::Reader::sees_mark))]
    fn sees_mark(&self, mark: u8) -> bool
        ensures { result ≡ reader.sees_mark mark self.now }
    {
        match self.first_mark() {
            Some(found) => found == mark,
            None => false,
        }
    }

    /// Takes a word, if it comes next.
    pub fn eat_word(&mut self, text: &[u8]) -> bool
        ensures { reader.eat_word text.now self.old ≡ Some (result, self.new) }
    {
        let sees = self.sees_word(text);
        if sees {
            self.skip();
        }
        sees
    }

    /// Takes a word, which must come next.
    pub fn word(&mut self, text: &[u8]) -> Result<(), ReadStop>
        ensures { Reads (reader.word text.now self.old) result self.new }
    {
        if !self.sees_word(text) {
            return Err(ReadStop::NotBuilt);
        }
        self.skip();
        Ok(())
    }

    /// Takes a mark, which must come next.
    pub fn mark(&mut self, mark: u8) -> Result<(), ReadStop>
        ensures { Reads (reader.mark mark self.old) result self.new }
    {
        if !self.sees_mark(mark) {
            return Err(ReadStop::NotBuilt);
        }
        self.skip();
        Ok(())
    }
}
