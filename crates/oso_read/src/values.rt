//! Names and metadata.

ghost use Rattle.std.specs.Prelude.{◌≡◌, true, false, [], Some, None, if◌then◌else◌, IfSome, IfNone, IfOk};
ghost use Rattle.oso_code.specs.Holding.{is_type};
ghost use Rattle.oso_code.specs.Names.{is_name};
ghost use Rattle.osl_valuetext.specs.declared.number.Spelling.TheVariants.{Canonical};
ghost use Rattle.osl_valuetext.specs.declared.place.Place.TheVariants.{Open};
ghost use Rattle.osl_valuetext.specs.Splitting.{pieces, is_comma};
ghost use Rattle.osl_valuetext.specs.Literals.{each, string_at, strings_at, values_at};
ghost use Rattle.osl_valuetext.specs.Scan.{spoken};
ghost use Rattle.osl_valuetext.specs.Unread.{Tells};
ghost use Rattle.oso_read.specs.Data.{meta_type_at, datum_of, is_meta, in_braces, meta_at};

use osl_value::{Base, Memory, Text, Ty};
use osl_valuetext::{
    Parting, Spelling, Unread, read_counted_numbers, read_string, read_type, split,
};
use oso_code::name::is_name;
use oso_code::{ListOf, Meta};
use std::alloc::Global;

/// The strings of which these are the words.
fn strings_at(alloc: Global, words: &[&[u8]]) -> Result<Vec<ListOf<u8>>, Unread>
    ensures { Tells (λ v. v.items) result (each string_at (spoken words.now)) }
{
    let mut strings = Vec::new(alloc);
    for word in words {
        strings.push(ListOf::new(read_string(alloc, word)?))?;
    }
    Ok(strings)
}

/// So many strings.
#[tactic(auto, unfolding(osl_valuetext::specs::Literals::strings_at))]
fn counted_strings(alloc: Global, ty: Ty, words: &[&[u8]]) -> Result<Vec<ListOf<u8>>, Unread>
    ensures { Tells (λ v. record { nums = []; texts = v.items }) result (strings_at string_at ty (spoken words.now)) }
{
    if words.len() != ty.text_count() {
        return Err(Unread::Misspelled);
    }
    strings_at(alloc, words)
}

/// The numbers or the strings of a datum.
#[tactic(auto, unfolding(osl_valuetext::specs::Literals::values_at))]
fn datum_parts(
    alloc: Global,
    ty: Ty,
    words: &[&[u8]],
) -> Result<(Vec<i64>, Vec<ListOf<u8>>), Unread>
    ensures { Tells (λ v. record { nums = v.0.items; texts = v.1.items }) result (values_at Canonical string_at ty (spoken words.now)) }
{
    if ty.base == Base::Str {
        let texts = counted_strings(alloc, ty, words)?;
        Ok((Vec::new(alloc), texts))
    } else {
        let nums = read_counted_numbers(alloc, Spelling::Canonical, ty, words)?;
        Ok((nums, Vec::new(alloc)))
    }
}

/// A word that is a name, as a text.
pub(crate) fn name_at(alloc: Global, word: &[u8]) -> Result<Text, Unread>
    ensures { Tells (λ name. name) result (if is_name word.now then Some word.now else None) }
{
    if !is_name(word) {
        return Err(Unread::Misspelled);
    }
    let bytes = Vec::from_slice(alloc, word)?;
    Text::new(bytes).ok_or(Unread::Misspelled)
}

/// The type of a datum, which may be `closure color`, with its blank.
#[tactic(auto, unfolding(crate::specs::Data::meta_type_at))]
fn meta_type_at(word: &[u8]) -> Option<Ty>
    ensures { result ≡ meta_type_at word.now }
{
    if word == Base::Closure.name().as_bytes() {
        Some(Ty::only(Base::Closure))
    } else {
        read_type(word)
    }
}

/// A datum's type, name and values.
#[tactic(auto, unfolding(crate::specs::Data::datum_of))]
fn datum_of(alloc: Global, fields: &[&[u8]]) -> Result<Meta, Unread>
    ensures { Tells (λ meta. meta) result (datum_of (spoken fields.now)) }
{
    let [ty, name, values @ ..] = fields else {
        return Err(Unread::Misspelled);
    };
    let Some(ty) = meta_type_at(ty) else {
        return Err(Unread::Misspelled);
    };
    let name = name_at(alloc, name)?;
    let (nums, texts) = datum_parts(alloc, ty, values)?;
    Ok(Meta {
        ty,
        name,
        nums: ListOf::new(nums),
        texts: ListOf::new(texts),
    })
}

/// What is in the braces of a datum's hint.
fn in_braces(word: &[u8]) -> Option<&[u8]>
    ensures some { IfSome result (λ inside. (is_meta word.now ≡ true) × (inside.now ≡ in_braces word.now)) }
    ensures none { IfNone result (is_meta word.now ≡ false) }
{
    if word.len() >= 7 && &word[..6] == b"%meta{".as_slice() && word[word.len() - 1] == b'}' {
        Some(&word[6..word.len() - 1])
    } else {
        None
    }
}

/// The fields of a datum.
fn fields_of<'a>(alloc: Global, inside: &'a [u8]) -> Result<Vec<&'a [u8]>, Memory>
    ensures { IfOk result (λ fields. spoken fields.items ≡ pieces is_comma Open inside.now) }
{
    let mut fields = Vec::new(alloc);
    split(Parting::Commas, inside, &mut fields)?;
    Ok(fields)
}

/// The datum of a hint.
#[tactic(auto, unfolding(crate::specs::Data::meta_at))]
pub(crate) fn meta_at(alloc: Global, word: &[u8]) -> Result<Meta, Unread>
    ensures { Tells (λ meta. meta) result (meta_at word.now) }
{
    let Some(inside) = in_braces(word) else {
        return Err(Unread::Misspelled);
    };
    let fields = fields_of(alloc, inside)?;
    datum_of(alloc, fields.as_slice())
}
