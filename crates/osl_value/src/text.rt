ghost use Rattle.std.specs.Prelude.{◌≡◌, ◌≤◌, ◌↔◌, [], length, vec_len, IsTrue, IsSome, IfSome, IfOk};
ghost use Rattle.osl_value.specs.Types.{longest_text};

use crate::memory::Memory;
use std::alloc::Global;
use std::marker::Model;

/// A string of the language: at most 512 bytes. Contracts see it as the list of its bytes.
#[derive(Debug, Drop)]
pub struct Text {
    bytes: Vec<u8>,
}

impl Model for Text {
    ghost use Rattle.std.specs.Prelude.{List, ℕ, ◌≤◌, length};
    ghost use Rattle.osl_value.specs.Types.{longest_text};

    ghost Value = { List ℕ };

    ghost view = { λ t. t.bytes.items };

    ghost invariant = { λ t. length t.bytes.items ≤ longest_text };
}

/// The most bytes that a string has.
const LONGEST: usize = 512;

impl Text {
    /// The string of these bytes, or `None` where there are more than 512.
    pub fn new(bytes: Vec<u8>) -> Option<Text>
        ensures fits { IsSome result ↔ (vec_len bytes ≤ longest_text) }
        ensures value { IfSome result (λ text. text ≡ bytes.items) }
    {
        if bytes.len() > LONGEST {
            return None;
        }
        Some(Text { bytes })
    }

    /// The string without bytes.
    pub fn empty(alloc: Global) -> Text
        ensures { result ≡ [] }
    {
        Text {
            bytes: Vec::new(alloc),
        }
    }

    /// Its bytes.
    pub fn bytes(&self) -> &[u8]
        ensures value { result.now ≡ self.now }
        ensures short { length self.now ≤ longest_text }
    {
        self.bytes.as_slice()
    }

    /// Its bytes, given back.
    pub fn into_bytes(self) -> Vec<u8>
        ensures { result.items ≡ self }
    {
        let Text { bytes } = self;
        bytes
    }

    /// An equal string.
    pub fn copy(&self) -> Result<Text, Memory>
        ensures { IfOk result (λ text. text ≡ self.now) }
    {
        let bytes = self.bytes.clone()?;
        Ok(Text { bytes })
    }

    /// Whether the two have the same bytes.
    pub fn equal(&self, other: &Text) -> bool
        ensures { IsTrue result ↔ (self.now ≡ other.now) }
    {
        self.bytes.as_slice() == other.bytes.as_slice()
    }
}
