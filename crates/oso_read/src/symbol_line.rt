//! The line of a shader's kind and name, and the lines of symbols.

ghost use Rattle.std.specs.Prelude.{◌≡◌, ◌==◌, true, length, option_map, filter, IfSome, IfOk};
ghost use Rattle.oso_code.specs.Holding.{is_type};
ghost use Rattle.oso_code.specs.Symbols.{has_value};
ghost use Rattle.oso_read.specs.Hints.{is_datum};
ghost use Rattle.osl_valuetext.specs.Literals.{each};
ghost use Rattle.oso_read.specs.Data.{meta_at};
ghost use Rattle.oso_read.specs.SymbolLine.{kind_named, class_named, head_words, head_at, closure_words, typed_words, start_at, metas_at, named_at, symbol_words, symbol_at};
ghost use Rattle.oso_read.specs.Said.{seen, head_of, typed_of};
ghost use Rattle.osl_valuetext.specs.Scan.{spoken};
ghost use Rattle.osl_valuetext.specs.Unread.{Tells};

use crate::hints::{Said, data_of, lacks_metadata};
use crate::op_line::only_word;
use crate::values::{meta_at, name_at};
use osl_value::{Base, ShaderKind, Text, Ty, Value};
use osl_valuetext::{Spelling, Unread, read_type, read_value};
use oso_code::holding::is_closure;
use oso_code::{Class, ListOf, Meta, Symbol};
use oso_write::{class_name, kind_name};
use std::alloc::Global;

/// A shader's kind, name and metadata.
#[derive(Debug, Drop)]
pub(crate) struct HeadLine {
    pub(crate) kind: ShaderKind,
    pub(crate) name: Text,
    pub(crate) metas: ListOf<Meta>,
}

/// A type, and the words after it.
#[derive(Clone, Copy)]
pub(crate) struct TypedWords<'w, 'a> {
    ty: Ty,
    rest: &'w [&'a [u8]],
}

const KINDS: [ShaderKind; 4] = [
    ShaderKind::Surface,
    ShaderKind::Displacement,
    ShaderKind::Volume,
    ShaderKind::Shader,
];

fn kind_named(word: &[u8]) -> Option<ShaderKind>
    ensures { result ≡ kind_named word.now }
{
    KINDS.iter().copied().find(|kind| word == kind_name(*kind))
}

const CLASSES: [Class; 6] = [
    Class::Param,
    Class::Oparam,
    Class::Global,
    Class::Const,
    Class::Local,
    Class::Temp,
];

fn class_named(word: &[u8]) -> Option<Class>
    ensures { result ≡ class_named word.now }
{
    CLASSES
        .iter()
        .copied()
        .find(|class| word == class_name(*class))
}

/// The metadata of data.
fn metas_each(alloc: Global, hints: &[&[u8]]) -> Result<Vec<Meta>, Unread>
    ensures { Tells (λ v. v.items) result (each meta_at (spoken hints.now)) }
{
    let mut metas = Vec::new(alloc);
    for hint in hints {
        metas.push(meta_at(alloc, hint)?)?;
    }
    Ok(metas)
}

/// The metadata of a line's hints.
fn metas_of(alloc: Global, hints: &[&[u8]]) -> Result<Vec<Meta>, Unread>
    ensures { Tells (λ v. v.items) result (each meta_at (filter is_datum (spoken hints.now))) }
{
    let found = data_of(alloc, hints)?;
    metas_each(alloc, found.as_slice())
}

/// A kind and a name, with metadata.
#[tactic(auto, unfolding(crate::specs::SymbolLine::head_words))]
fn head_words(alloc: Global, words: &[&[u8]], metas: Vec<Meta>) -> Result<HeadLine, Unread>
    ensures { Tells head_of result (head_words (spoken words.now) metas.items) }
{
    let [kind, rest @ ..] = words else {
        return Err(Unread::Misspelled);
    };
    let Some(kind) = kind_named(kind) else {
        return Err(Unread::Misspelled);
    };
    let Some(name) = only_word(rest) else {
        return Err(Unread::Misspelled);
    };
    let name = name_at(alloc, name)?;
    Ok(HeadLine {
        kind,
        name,
        metas: ListOf::new(metas),
    })
}

/// What the line of kind and name says.
#[tactic(auto, unfolding(crate::specs::SymbolLine::head_at))]
pub(crate) fn head_at(alloc: Global, said: Said) -> Result<HeadLine, Unread>
    ensures { Tells head_of result (head_at (seen said.entry)) }
{
    let metas = metas_of(alloc, said.hints)?;
    head_words(alloc, said.words, metas)
}

/// The rest of the words of `closure color`.
fn closure_words<'w, 'a>(words: &'w [&'a [u8]]) -> Option<TypedWords<'w, 'a>>
    ensures value { option_map typed_of result ≡ closure_words (spoken words.now) }
    ensures fits { IfSome result (λ typed. is_type typed.ty ≡ true) }
{
    match words {
        [first, rest @ ..] if *first == b"color".as_slice() => Some(TypedWords {
            ty: Ty::only(Base::Closure),
            rest,
        }),
        _ => None,
    }
}

/// The type at the front of words, and what follows it.
#[tactic(auto, unfolding(crate::specs::SymbolLine::typed_words))]
fn typed_words<'w, 'a>(words: &'w [&'a [u8]]) -> Option<TypedWords<'w, 'a>>
    ensures value { option_map typed_of result ≡ typed_words (spoken words.now) }
    ensures fits { IfSome result (λ typed. is_type typed.ty ≡ true) }
{
    let [first, rest @ ..] = words else {
        return None;
    };
    if *first == b"closure".as_slice() {
        return closure_words(rest);
    }
    match read_type(first) {
        Some(ty) => Some(TypedWords { ty, rest }),
        None => None,
    }
}

/// Whether symbols of a class and a type have a value: constants, and parameters that are no
/// closures.
fn has_value(class: Class, ty: Ty) -> bool
    ensures { result ≡ has_value class ty }
{
    match class {
        Class::Const => true,
        Class::Param | Class::Oparam => !is_closure(ty),
        Class::Global | Class::Local | Class::Temp => false,
    }
}

/// What a symbol starts at.
#[tactic(auto, unfolding(crate::specs::SymbolLine::start_at))]
fn start_at(alloc: Global, class: Class, ty: Ty, words: &[&[u8]]) -> Result<Option<Value>, Unread>
    requires { is_type ty ≡ true }
    ensures { Tells (λ value. value) result (start_at class ty (spoken words.now)) }
{
    if has_value(class, ty) {
        let value = read_value(alloc, Spelling::Canonical, ty, words)?;
        return Ok(Some(value));
    }
    if words.is_empty() {
        Ok(None)
    } else {
        Err(Unread::Misspelled)
    }
}

/// The metadata of a symbol, which parameters alone have.
#[tactic(auto, unfolding(crate::specs::SymbolLine::metas_at))]
fn metas_at(alloc: Global, class: Class, said: Said) -> Result<Vec<Meta>, Unread>
    ensures { Tells (λ v. v.items) result (metas_at class (filter is_datum (spoken said.entry.hints.now))) }
{
    if class.is_parameter() {
        return metas_of(alloc, said.hints);
    }
    if lacks_metadata(said) {
        Ok(Vec::new(alloc))
    } else {
        Err(Unread::Misspelled)
    }
}

/// A symbol by its class and type, with the words of its name and of what it starts at.
#[tactic(auto, unfolding(crate::specs::SymbolLine::named_at))]
fn named_at(
    alloc: Global,
    class: Class,
    ty: Ty,
    words: &[&[u8]],
    metas: Vec<Meta>,
) -> Result<Symbol, Unread>
    requires { is_type ty ≡ true }
    ensures value { Tells (λ symbol. symbol) result (named_at class ty (spoken words.now) metas.items) }
    ensures same_type { IfOk result (λ symbol. symbol.ty ≡ ty) }
{
    let [name, words @ ..] = words else {
        return Err(Unread::Misspelled);
    };
    let name = name_at(alloc, name)?;
    let value = start_at(alloc, class, ty, words)?;
    Ok(Symbol {
        class,
        ty,
        name,
        value,
        metas: ListOf::new(metas),
    })
}

/// What a symbol's line says.
#[tactic(auto, unfolding(crate::specs::SymbolLine::symbol_at, crate::specs::SymbolLine::symbol_words, crate::specs::SymbolLine::class_at))]
pub(crate) fn symbol_at(alloc: Global, said: Said) -> Result<Symbol, Unread>
    ensures value { Tells (λ symbol. symbol) result (symbol_at (seen said.entry)) }
    ensures fits { IfOk result (λ symbol. is_type symbol.ty ≡ true) }
{
    let [class, words @ ..] = said.words else {
        return Err(Unread::Misspelled);
    };
    let Some(class) = class_named(class) else {
        return Err(Unread::Misspelled);
    };
    let Some(typed) = typed_words(words) else {
        return Err(Unread::Misspelled);
    };
    let metas = metas_at(alloc, class, said)?;
    named_at(alloc, class, typed.ty, typed.rest, metas)
}
