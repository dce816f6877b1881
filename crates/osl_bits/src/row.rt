ghost use Rattle.std.specs.Prelude.{◌≡◌, ◌<◌, ◌↔◌, IsTrue, IfOk, Some, false, length, slice_get, slice_set, replicate};
ghost use Rattle.osl_bits.specs.Row.{union, minus};

use crate::words::{equal_words, has_bit, minus_words, union_words, with_bit};
use osl_value::Memory;
use std::alloc::Global;
use std::marker::Model;

/// A row of bits, seen as a list of truth values.
#[derive(Debug, Drop)]
pub struct BitRow {
    words: Vec<u64>,
    len: u32,
}

impl Model for BitRow {
    ghost use Rattle.std.specs.Prelude.{Bool, List};
    ghost use Rattle.osl_bits.specs.Bits.{bits_of, IsRow};

    ghost Value = { List Bool };

    ghost view = { λ row. bits_of row.words.items row.len };

    ghost invariant = { λ row. IsRow row.words.items row.len };
}

impl BitRow {
    /// A row of this length, every bit false.
    ///
    /// # Errors
    /// `Memory` where the words cannot be had.
    pub fn make(alloc: Global, len: u32) -> Result<BitRow, Memory>
        ensures { IfOk result (λ row. row ≡ replicate len false) }
    {
        let words = vec![in alloc; 0u64; len.div_ceil(64) as usize]?;
        Ok(BitRow { words, len })
    }

    /// How many bits the row has.
    pub fn length(&self) -> u32
        ensures { result ≡ length self.now }
    {
        self.len
    }

    /// The bit at `i`.
    pub fn test(&self, i: u32) -> bool
        requires { i < length self.now }
        ensures { slice_get self.now i ≡ Some result }
    {
        has_bit(self.words[(i / 64) as usize], i % 64)
    }

    /// Sets the bit at `i` to `on`; the others stay.
    pub fn set(&mut self, i: u32, on: bool)
        requires { i < length self.old }
        ensures { self.new ≡ slice_set self.old i on }
    {
        let place = (i / 64) as usize;
        self.words[place] = with_bit(self.words[place], i % 64, on);
    }

    /// Sets each bit that the other row, of the same length, has.
    pub fn union_with(&mut self, other: &BitRow)
        requires { length self.old ≡ length other.now }
        ensures bits { self.new ≡ union self.old other.now }
        ensures len { length self.new ≡ length self.old }
    {
        union_words(&mut self.words, &other.words);
    }

    /// Clears each bit that the other row, of the same length, has.
    pub fn minus_with(&mut self, other: &BitRow)
        requires { length self.old ≡ length other.now }
        ensures bits { self.new ≡ minus self.old other.now }
        ensures len { length self.new ≡ length self.old }
    {
        minus_words(&mut self.words, &other.words);
    }

    /// Whether each bit is that of the other row, of the same length.
    pub fn equal(&self, other: &BitRow) -> bool
        requires { length self.now ≡ length other.now }
        ensures { IsTrue result ↔ (self.now ≡ other.now) }
    {
        equal_words(&self.words, &other.words)
    }
}
