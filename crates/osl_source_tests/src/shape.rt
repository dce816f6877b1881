//! Trees as text: each part stands behind a blank, and a node in parentheses, with its name first.

mod syntax;
mod typed;

use osl_decimal::write_fx;
use osl_value::{Fx, Memory};
use std::alloc::Global;

/// A text that grows.
#[derive(Drop)]
pub struct Shape {
    alloc: Global,
    text: String,
}

impl Shape {
    pub fn new(alloc: Global) -> Shape {
        Shape {
            alloc,
            text: String::new(alloc),
        }
    }

    /// The text without its first blank.
    pub fn as_str(&self) -> &str {
        self.text.as_str().trim_start()
    }

    fn open(&mut self, name: &str) -> Result<(), Memory> {
        self.text.push_str(" (")?;
        self.text.push_str(name)?;
        Ok(())
    }

    fn close(&mut self) -> Result<(), Memory> {
        self.text.push_str(")")?;
        Ok(())
    }

    fn bytes(&mut self, bytes: &[u8]) -> Result<(), Memory> {
        for byte in bytes {
            self.text.push(char::from(*byte))?;
        }
        Ok(())
    }

    pub fn word(&mut self, bytes: &[u8]) -> Result<(), Memory> {
        self.text.push_str(" ")?;
        self.bytes(bytes)
    }

    fn string(&mut self, bytes: &[u8]) -> Result<(), Memory> {
        self.text.push_str(" \"")?;
        self.bytes(bytes)?;
        self.text.push_str("\"")?;
        Ok(())
    }

    fn float(&mut self, value: Fx) -> Result<(), Memory> {
        let mut digits = Vec::new(self.alloc);
        write_fx(value, &mut digits)?;
        self.word(digits.as_slice())?;
        self.text.push_str("f")?;
        Ok(())
    }
}
