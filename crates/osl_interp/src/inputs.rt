//! Whether instance values and connections fit a shader.

ghost use Rattle.std.specs.Prelude.{◌≡◌, ◌↔◌, IsTrue, option_map, slice_get};
ghost use Rattle.osl_interp.specs.Calls.{InputsFit};
ghost use Rattle.osl_interp.specs.Starts.{is_input, has_type, entry_fits, EntriesFit};

use osl_value::{LayerValues, Ty, Value};
use oso_code::{Class, Shader, Symbol};

/// Whether the symbol of a number is connected, if it has an entry.
pub fn wired_at(wired: &[bool], k: usize) -> Option<bool>
    ensures { result ≡ slice_get wired.now k }
{
    match wired.get(k) {
        Some(is_wired) => Some(*is_wired),
        None => None,
    }
}

/// The instance value of the symbol of a number, if it has an entry.
pub fn fixed_at<'a>(fixed: &'a [Option<Value>], k: usize) -> Option<&'a Option<Value>>
    ensures { option_map (λ v. v.now) result ≡ slice_get fixed.now k }
{
    match fixed.get(k) {
        Some(value) => Some(value),
        None => None,
    }
}

/// Whether an instance value, if there is one, is of a type.
fn has_type(ty: Ty, fixed: &Option<Value>) -> bool
    ensures { result ≡ has_type ty fixed.now }
{
    match fixed {
        Some(value) => value.ty() == ty,
        None => true,
    }
}

/// Whether a parameter is no output, so that it may be connected.
fn is_input(class: Class) -> bool
    ensures { result ≡ is_input class }
{
    class == Class::Param
}

/// Whether a symbol has entries of its own just where it is a parameter, and they fit it.
fn entry_fits(symbol: &Symbol, wired: Option<bool>, fixed: Option<&Option<Value>>) -> bool
    ensures { result ≡ entry_fits symbol.now wired (option_map (λ v. v.now) fixed.entry) }
{
    match (wired, fixed) {
        (Some(wired), Some(fixed)) => {
            symbol.class.is_parameter()
                && (!wired || is_input(symbol.class))
                && has_type(symbol.ty, fixed)
        }
        (None, None) => !symbol.class.is_parameter(),
        _ => false,
    }
}

fn entries_fit(symbols: &[Symbol], wired: &[bool], fixed: &[Option<Value>]) -> bool
    ensures { IsTrue result ↔ EntriesFit symbols.now wired.now fixed.now }
{
    if wired.len() > symbols.len() || fixed.len() > symbols.len() {
        return false;
    }
    for k in 0..symbols.len() {
        if !entry_fits(&symbols[k], wired_at(wired, k), fixed_at(fixed, k)) {
            return false;
        }
    }
    true
}

/// Whether instance values and connections fit a shader: each parameter has an entry in both, and no other symbol has;
/// no output is connected; and each instance value has its parameter's type. A run starts only on such.
pub fn inputs_fit(code: &Shader, fixed: &LayerValues, wired: &[bool]) -> bool
    ensures { IsTrue result ↔ InputsFit code.now fixed.now wired.now }
{
    entries_fit(code.raw().symbols.as_slice(), wired, fixed.as_slice())
}
