//! What a run gives.

ghost use Rattle.std.specs.Prelude.{◌≡◌, length, IsTrue, OnOk};
ghost use Rattle.osl_value.specs.AnyValue.{argument, parts_of};
ghost use Rattle.osl_apply.specs.Operands.{values};
ghost use Rattle.osl_apply.specs.Slots.{seen, is_kept};
ghost use Rattle.oso_code.specs.CodeRun.{is_ci, closure_from};
ghost use Rattle.osl_interp.specs.Stops.{AreKept};
ghost use Rattle.osl_interp.specs.Meaning.{configuration};
ghost use Rattle.osl_interp.specs.Ready.{IsLaid};

use crate::machine::Machine;
use osl_apply::Slot;
use osl_closure::{Node, empty};
use osl_layer::GlobalName;
use osl_value::Memory;
use oso_code::{Class, Symbol};
use std::alloc::Global;

/// Keeps what the slot of a symbol holds as a value that can be lent, if it is an output.
fn keep_output<'a>(alloc: Global, symbol: &Symbol, slot: &mut Slot<'a>) -> Result<(), Memory>
    ensures value { OnOk result (seen slot.new ≡ seen slot.old) }
    ensures kept { OnOk result (symbol.now.class ≡ Class.Oparam → IsTrue (is_kept slot.new)) }
{
    if symbol.class == Class::Oparam {
        slot.settle(alloc)?;
    }
    Ok(())
}

/// Keeps the outputs as values that can be lent.
fn keep_outputs<'a>(alloc: Global, symbols: &[Symbol], slots: &mut [Slot<'a>]) -> Result<(), Memory>
    requires { length symbols.now ≡ length slots.old }
    ensures same { OnOk result (values slots.new ≡ values slots.old) }
    ensures kept { OnOk result (AreKept symbols.now slots.new) }
{
    for k in 0..symbols.len() {
        keep_output(alloc, &symbols[k], &mut slots[k])?;
    }
    Ok(())
}

/// Keeps the outputs of a run as values that can be lent.
pub fn settle<'a>(m: &mut Machine<'a>) -> Result<(), Memory>
    requires { IsLaid (configuration m.old).code (configuration m.old).inputs (configuration m.old).values }
    ensures same { OnOk result (configuration m.new ≡ configuration m.old) }
    ensures kept { OnOk result (AreKept (configuration m.new).code.symbols m.new.slots.items) }
{
    keep_outputs(m.alloc, m.code.symbols.as_slice(), &mut m.slots)
}

fn is_closure_global(symbol: &Symbol) -> bool
    ensures { result ≡ is_ci symbol.now }
{
    symbol.class.is_global() && symbol.name.bytes() == GlobalName::Ci.name().as_bytes()
}

/// The closure that a slot holds, or an empty one.
fn closure_in<'a>(slot: &Slot<'a>) -> Node<'a>
    ensures { result ≡ parts_of (seen slot.now) }
{
    match slot {
        Slot::Closure(node) => node.share(),
        _ => empty(),
    }
}

/// The closure that the global `Ci` holds, empty where the code does not name it.
pub fn closure_in_slots<'a>(symbols: &[Symbol], slots: &[Slot<'a>]) -> Node<'a>
    requires { length symbols.now ≡ length slots.now }
    ensures { result ≡ closure_from 0 symbols.now (argument (values slots.now)) }
{
    for k in 0..symbols.len() {
        if is_closure_global(&symbols[k]) {
            return closure_in(&slots[k]);
        }
    }
    empty()
}
