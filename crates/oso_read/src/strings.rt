//! The strings of code hold bytes, and those of values are no longer than a string may be.

ghost use Rattle.std.specs.Prelude.{◌≡◌, true, IsTrue};
ghost use Rattle.std.specs.List.{list_all};
ghost use Rattle.osl_valuetext.specs.Spells.{are_bytes};
ghost use Rattle.oso_read.specs.Spelt.{datum_spells, start_spells, symbol_spells, can_spell};

use osl_value::Value;
use osl_valuetext::laws::{are_bytes, are_texts};
use oso_code::{ListOf, Meta, Raw, Symbol};

/// What a symbol starts at can be spelled.
fn start_spells(start: &Option<Value>)
    ensures { start_spells start.now ≡ true }
{
    match start {
        None => (),
        Some(value) => are_texts(value.texts()),
    }
}

/// Strings are bytes.
fn are_all_bytes(texts: &[ListOf<u8>])
    ensures { list_all are_bytes texts.now ≡ true }
{
    for text in texts {
        are_bytes(text.as_slice());
    }
}

/// The strings of a datum can be spelled.
fn datum_spells(meta: &Meta)
    ensures { datum_spells meta.now ≡ true }
{
    are_all_bytes(meta.texts.as_slice());
}

/// The strings of metadata can be spelled.
fn metas_spell(metas: &[Meta])
    ensures { list_all datum_spells metas.now ≡ true }
{
    for meta in metas {
        datum_spells(meta);
    }
}

/// A symbol can be spelled.
fn symbol_spells(symbol: &Symbol)
    ensures { symbol_spells symbol.now ≡ true }
{
    start_spells(&symbol.value);
    metas_spell(symbol.metas.as_slice());
}

/// Symbols can be spelled.
fn symbols_spell(symbols: &[Symbol])
    ensures { list_all symbol_spells symbols.now ≡ true }
{
    for symbol in symbols {
        symbol_spells(symbol);
    }
}

/// The strings of code can be spelled.
pub(crate) fn can_spell(raw: &Raw)
    ensures { IsTrue (can_spell raw.now) }
{
    metas_spell(raw.metas.as_slice());
    symbols_spell(raw.symbols.as_slice());
}
