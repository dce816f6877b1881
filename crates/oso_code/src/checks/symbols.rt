//! Which symbols and which metadata code may have.

ghost use Rattle.std.specs.Prelude.{◌≡◌};
ghost use Rattle.std.specs.List.{list_all};
ghost use Rattle.oso_code.specs.Symbols.{is_parameter, datum_fits, parameter_fits, global_fits, has_value, is_value_of, metadata_fits, symbol_fits, header_fits};

use crate::holding::{is_closure, is_type, makes_up};
use crate::name::{is_main_name, is_name};
use crate::raw::Raw;
use crate::symbol::{Class, Meta, Symbol};
use osl_layer::GlobalName;
use osl_value::{Ty, Value};

/// Whether a datum of metadata has a name, a type, and what makes up a value of the type; a closure has nothing.
pub fn datum_fits(meta: &Meta) -> bool
    ensures { result ≡ datum_fits meta.now }
{
    is_name(meta.name.bytes())
        && is_type(meta.ty)
        && makes_up(meta.ty, meta.nums.as_slice(), meta.texts.len())
}

fn data_fit(metas: &[Meta]) -> bool
    ensures { result ≡ list_all datum_fits metas.now }
{
    metas.iter().all(|meta| datum_fits(meta))
}

/// Whether a symbol fits by itself, its name being free; `leading` says that all symbols before it are parameters.
pub fn symbol_fits(leading: bool, symbol: &Symbol) -> bool
    ensures { result ≡ symbol_fits leading symbol.now }
{
    is_name(symbol.name.bytes())
        && parameter_fits(leading, symbol)
        && is_type(symbol.ty)
        && global_fits(symbol)
        && is_value_of(has_value(symbol.class, symbol.ty), symbol.ty, &symbol.value)
        && metadata_fits(symbol.class, symbol.metas.as_slice())
}

/// Parameters come first, and none has the name of the body.
fn parameter_fits(leading: bool, symbol: &Symbol) -> bool
    ensures { result ≡ parameter_fits leading symbol.now }
{
    !symbol.class.is_parameter() || leading && !is_main_name(symbol.name.bytes())
}

/// A global is one of the language's, with its own type.
fn global_fits(symbol: &Symbol) -> bool
    ensures { result ≡ global_fits symbol.now.class symbol.now.name symbol.now.ty }
{
    match symbol.class {
        Class::Global => match GlobalName::named(symbol.name.bytes()) {
            Some(global) => symbol.ty == global.ty(),
            None => false,
        },
        _ => true,
    }
}

/// A constant has a value, and a parameter that is no closure.
fn has_value(class: Class, ty: Ty) -> bool
    ensures { result ≡ has_value class ty }
{
    match class {
        Class::Const => true,
        Class::Param | Class::Oparam => !is_closure(ty),
        _ => false,
    }
}

/// Whether there is a value of the type, where one is wanted, or else none.
fn is_value_of(wanted: bool, ty: Ty, value: &Option<Value>) -> bool
    ensures { result ≡ is_value_of wanted ty value.now }
{
    match value {
        Some(value) => {
            wanted
                && !is_closure(ty)
                && value.ty() == ty
                && makes_up(value.ty(), value.nums(), value.texts().len())
        }
        None => !wanted,
    }
}

/// Parameters alone have metadata.
fn metadata_fits(class: Class, metas: &[Meta]) -> bool
    ensures { result ≡ metadata_fits class metas.now }
{
    if class.is_parameter() {
        data_fit(metas)
    } else {
        metas.is_empty()
    }
}

/// Whether the shader's own name and metadata fit.
pub fn header_fits(raw: &Raw) -> bool
    ensures { result ≡ header_fits raw.now }
{
    is_name(raw.name.bytes()) && data_fit(raw.metas.as_slice())
}
