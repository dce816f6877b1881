//! A value for the tests: a page of lines, which may be closed.
ghost use Rattle.std.specs.Prelude.{◌≡◌, ◌++◌, ◌∷◌, [], Some, None, if◌then◌else◌};
ghost use Rattle.osl_turnlock.specs.Growth.{KeepsMark};

use crate::Held;
use std::alloc::Global;

/// What a page began with. No value of it is made.
pub struct Title {
    pub number: u32,
}

/// A list of lines, which may be closed at a place.
#[derive(Drop)]
pub struct Page {
    number: u32,
    lines: Vec<u64>,
    closed: Option<u64>,
}

impl Held for Page {
    type Entry = u64;

    type Base = Title;

    ghost log = { λ p. p.lines.items };

    ghost mark = { λ p. p.closed };

    ghost base = { λ p. record { number = p.number } };

    fn count(&self) -> u64 {
        self.lines.len() as u64
    }

    fn mark(&self) -> Option<u64> {
        self.closed
    }
}

impl Page {
    pub fn new(alloc: Global, number: u32) -> Page
        ensures { (result.lines.items ≡ []) × (result.closed ≡ None) × (result.number ≡ number) }
    {
        Page {
            number,
            lines: Vec::new(alloc),
            closed: None,
        }
    }

    pub fn lines(&self) -> &[u64]
        ensures { result.now ≡ self.now.lines.items }
    {
        self.lines.as_slice()
    }

    /// Adds a line where there is memory for it, and says whether it did.
    pub fn write(&mut self, line: u64) -> bool
        ensures lines { self.new.lines.items ≡ (if result then self.old.lines.items ++ line ∷ [] else self.old.lines.items) }
        ensures rest { (self.new.number ≡ self.old.number) × (self.new.closed ≡ self.old.closed) }
    {
        self.lines.push(line).is_ok()
    }

    /// Closes the page where it is open, and says where it is closed.
    pub fn shut(&mut self) -> u64
        ensures rest { (self.new.lines.items ≡ self.old.lines.items) × (self.new.number ≡ self.old.number) }
        ensures mark { KeepsMark self.old.closed self.new.closed × (self.new.closed ≡ Some result) }
    {
        match self.closed {
            Some(at) => at,
            None => {
                let at = self.lines.len() as u64;
                self.closed = Some(at);
                at
            }
        }
    }
}
