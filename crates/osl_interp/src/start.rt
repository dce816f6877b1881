//! The machine at the start of a run.

ghost use Rattle.std.specs.Prelude.{◌≡◌, ◌≤◌, ℕ, Some, None, option_map, [], length, slice_get, IfOk};
ghost use Rattle.osl_value.specs.Types.{longest_array};
ghost use Rattle.osl_apply.specs.Operands.{values};
ghost use Rattle.osl_apply.specs.Slots.{seen};
ghost use Rattle.oso_code.specs.CodeRun.{stated};
ghost use Rattle.oso_code.specs.declared.symbol.Symbol.{Symbol as SymbolIs};
ghost use Rattle.osl_layer.specs.Globals.{global_at};
ghost use Rattle.osl_interp.specs.Meaning.{configuration};
ghost use Rattle.osl_interp.specs.Starts.{known_from, knowns, first_value, AreFirst, first_configuration};

use crate::frame::Mode;
use crate::inputs::{fixed_at, wired_at};
use crate::known::Known;
use crate::machine::Machine;
use osl_apply::{Kind, Slot};
use osl_closure::empty;
use osl_layer::GlobalName;
use osl_value::{Base, Fx, LayerValues, Memory, Point, Text, Ty, Value};
use oso_code::{Class, Raw, Symbol};
use std::alloc::Global;

/// The value that stands at a symbol, read where it lies, and zero where none does.
fn stated_slot<'a>(alloc: Global, symbol: &'a Symbol) -> Result<Slot<'a>, Memory>
    requires { symbol.now.ty.len ≤ longest_array }
    ensures { IfOk result (λ slot. seen slot ≡ stated symbol.now.ty symbol.now.value) }
{
    match &symbol.value {
        Some(value) => Ok(Slot::lent(value)),
        None => Slot::zero(alloc, symbol.ty),
    }
}

fn global_slot<'a>(point: &Point, global: GlobalName) -> Slot<'a>
    ensures { seen result ≡ global_at point.now global }
{
    match global {
        GlobalName::P => Slot::Triple(Kind::Point, point.p),
        GlobalName::N => Slot::Triple(Kind::Normal, point.n),
        GlobalName::Ng => Slot::Triple(Kind::Normal, point.ng),
        GlobalName::I => Slot::Triple(Kind::Vector, point.i),
        GlobalName::U => Slot::Float(point.u),
        GlobalName::V => Slot::Float(point.v),
        GlobalName::Ci => Slot::Closure(empty()),
    }
}

/// What a symbol holds at the start.
fn first_slot<'a>(
    alloc: Global,
    symbol: &'a Symbol,
    wired: Option<bool>,
    fixed: Option<&'a Option<Value>>,
    point: &Point,
) -> Result<Slot<'a>, Memory>
    requires { symbol.now.ty.len ≤ longest_array }
    ensures { IfOk result (λ slot. seen slot ≡ first_value symbol.now wired (option_map (λ v. v.now) fixed.entry) point.now) }
{
    match symbol.class {
        Class::Param | Class::Oparam => match (wired, fixed) {
            (Some(true), _) => Slot::zero(alloc, symbol.ty),
            (_, Some(Some(value))) => Ok(Slot::lent(value)),
            _ => stated_slot(alloc, symbol),
        },
        Class::Global => match GlobalName::named(symbol.name.bytes()) {
            Some(global) => Ok(global_slot(point, global)),
            None => Slot::zero(alloc, symbol.ty),
        },
        Class::Const => stated_slot(alloc, symbol),
        Class::Local | Class::Temp => Slot::zero(alloc, symbol.ty),
    }
}

/// What is known of a parameter's input at the start.
fn first_known(wired: bool, fixed: &Option<Value>) -> Known
    ensures { result ≡ known_from wired fixed.now }
{
    match (wired, fixed) {
        (true, _) => Known::Waiting,
        (false, Some(_)) => Known::Fixed,
        (false, None) => Known::Default,
    }
}

fn first_inputs(
    alloc: Global,
    wired: &[bool],
    fixed: &[Option<Value>],
) -> Result<Vec<Known>, Memory>
    requires { length wired.now ≡ length fixed.now }
    ensures { IfOk result (λ inputs. inputs.items ≡ knowns wired.now fixed.now) }
{
    let mut inputs = Vec::with_capacity(alloc, wired.len())?;
    for k in 0..wired.len() {
        inputs.push(first_known(wired[k], &fixed[k]))?;
    }
    Ok(inputs)
}

fn first_slots<'a>(
    alloc: Global,
    symbols: &'a [Symbol],
    wired: &[bool],
    fixed: &'a [Option<Value>],
    point: &Point,
) -> Result<Vec<Slot<'a>>, Memory>
    requires { (k : ℕ) (symbol : SymbolIs) → slice_get symbols.now k ≡ Some symbol → symbol.ty.len ≤ longest_array }
    ensures { IfOk result (λ slots. AreFirst symbols.now wired.now fixed.now point.now (values slots.items)) }
{
    let mut slots = Vec::with_capacity(alloc, symbols.len())?;
    for k in 0..symbols.len() {
        let is_wired = wired_at(wired, k);
        let slot = first_slot(alloc, &symbols[k], is_wired, fixed_at(fixed, k), point)?;
        slots.push(slot)?;
    }
    Ok(slots)
}

/// The machine at the start of a run.
pub fn first_machine<'a>(
    alloc: Global,
    code: &'a Raw,
    fixed: &'a LayerValues,
    wired: &[bool],
    point: &Point,
    budget: u32,
) -> Result<Machine<'a>, Memory>
    requires entries { length wired.now ≡ length fixed.now }
    requires short { (k : ℕ) (symbol : SymbolIs) → slice_get code.now.symbols k ≡ Some symbol → symbol.ty.len ≤ longest_array }
    ensures machine { IfOk result (λ m. configuration m ≡ first_configuration code.now wired.now fixed.now budget (configuration m).values) }
    ensures slots { IfOk result (λ m. AreFirst code.now.symbols wired.now fixed.now point.now (configuration m).values) }
{
    let inputs = first_inputs(alloc, wired, fixed.as_slice())?;
    let slots = first_slots(
        alloc,
        code.symbols.as_slice(),
        wired,
        fixed.as_slice(),
        point,
    )?;
    Ok(Machine {
        alloc,
        code,
        inputs,
        slots,
        turns: budget,
        frames: Vec::new(alloc),
        mode: Mode::Run,
        at: 0,
        end: 0,
        section: 0,
    })
}
