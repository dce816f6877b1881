//! Rows of bits: the sets of symbols that the analyses of a shader's code keep.
//!
//! A row is seen as a list of truth values. Underneath it is words of 64 bits, whose bits past the row's length are
//! false. What the calls do to the list is defined in `specs/Row.antt`, and how words hold a list in `specs/Bits.antt`.
#![tactic(auto)]

mod row;
mod words;

pub use row::BitRow;
