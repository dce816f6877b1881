//! Words of types, numbers, strings, values and names, read and written: what the texts of code, of groups, of points and
//! of edits share.
//!
//! A word is seen as its bytes, words as the list of these. `specs/Words.antt` has the one canonical text of each thing,
//! `specs/Literals.antt` and `Types.antt` say what words mean, `specs/Splitting.antt` which words a line has, and the
//! contracts of `laws` what ties reading and writing together.
#![tactic(auto)]

mod escape;
mod identifiers;
pub mod laws;
mod number;
mod place;
mod types;
mod unread;
mod values;
mod words;
mod write;

pub use escape::{read_string, read_text};
pub use identifiers::{is_identifier, read_pair, write_pair};
pub use number::{Spelling, read_decimal, read_number, read_numbers};
pub use place::Place;
pub use types::{is_plain_type, read_type};
pub use unread::Unread;
pub use values::{read_counted_numbers, read_value};
pub use words::{Parting, split, split_words};
pub use write::{
    write_decimal, write_number, write_numbers, write_string, write_type, write_value,
};
