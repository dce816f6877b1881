//! Words of values.

ghost use Rattle.std.specs.Prelude.{◌≡◌, [], map};
ghost use Rattle.osl_valuetext.specs.Literals.{each, text_at, numbers_at, strings_at, values_at, value_at};
ghost use Rattle.osl_valuetext.specs.Scan.{spoken};
ghost use Rattle.osl_valuetext.specs.Unread.{Tells};

use crate::escape::read_text;
use crate::number::{Spelling, read_numbers};
use crate::types::is_plain_type;
use crate::unread::Unread;
use osl_value::{Base, Text, Ty, Value};
use std::alloc::Global;

/// The strings of at most 512 bytes that words write.
fn texts_at(alloc: Global, words: &[&[u8]]) -> Result<Vec<Text>, Unread>
    ensures { Tells (λ v. v.items) result (each text_at (spoken words.now)) }
{
    let mut texts = Vec::new(alloc);
    for word in words {
        texts.push(read_text(alloc, word)?)?;
    }
    Ok(texts)
}

/// As many numbers as a value of the type has, in order. `Misspelled` comes where the words are too few or too many, or one
/// of them writes no number of the type.
#[tactic(auto, unfolding(crate::specs::Literals::numbers_at))]
pub fn read_counted_numbers(
    alloc: Global,
    spelling: Spelling,
    ty: Ty,
    words: &[&[u8]],
) -> Result<Vec<i64>, Unread>
    ensures { Tells (λ v. record { nums = v.items; texts = [] }) result (numbers_at spelling ty (spoken words.now)) }
{
    if words.len() != ty.number_count() {
        return Err(Unread::Misspelled);
    }
    read_numbers(alloc, spelling, ty.base, words)
}

/// As many strings as a value of the type has.
#[tactic(auto, unfolding(crate::specs::Literals::strings_at))]
fn counted_texts(alloc: Global, ty: Ty, words: &[&[u8]]) -> Result<Vec<Text>, Unread>
    ensures { Tells (λ v. record { nums = []; texts = v.items }) result (strings_at text_at ty (spoken words.now)) }
{
    if words.len() != ty.text_count() {
        return Err(Unread::Misspelled);
    }
    texts_at(alloc, words)
}

/// The numbers or the strings of a value.
#[tactic(auto, unfolding(crate::specs::Literals::values_at))]
fn value_parts(
    alloc: Global,
    spelling: Spelling,
    ty: Ty,
    words: &[&[u8]],
) -> Result<(Vec<i64>, Vec<Text>), Unread>
    ensures { Tells (λ v. record { nums = v.0.items; texts = v.1.items }) result (values_at spelling text_at ty (spoken words.now)) }
{
    if ty.base == Base::Str {
        let texts = counted_texts(alloc, ty, words)?;
        Ok((Vec::new(alloc), texts))
    } else {
        let nums = read_counted_numbers(alloc, spelling, ty, words)?;
        Ok((nums, Vec::new(alloc)))
    }
}

/// The value of a type that words write: its numbers or its strings, in order, exactly as many as the type has.
///
/// `Misspelled` comes where the type has no values, where the words are too few or too many, and where one of them writes
/// no number of the type, or no string of at most 512 bytes.
#[tactic(auto, unfolding(crate::specs::Literals::value_at))]
pub fn read_value(
    alloc: Global,
    spelling: Spelling,
    ty: Ty,
    words: &[&[u8]],
) -> Result<Value, Unread>
    ensures { Tells (λ value. value) result (value_at spelling ty (spoken words.now)) }
{
    if !is_plain_type(ty) {
        return Err(Unread::Misspelled);
    }
    let (nums, texts) = value_parts(alloc, spelling, ty, words)?;
    match Value::new(ty, nums, texts) {
        Some(value) => Ok(value),
        None => Err(Unread::Misspelled),
    }
}
