// Slots that are made of values, and slots whose values are kept as a whole.

ghost use Rattle.std.specs.Prelude.{◌≡◌, ◌||◌, IsTrue, IfOk, IfSome, None, length};
ghost use Rattle.osl_value.specs.AnyValue.{Of, with_numbers, with_text, zero_value};
ghost use Rattle.osl_value.specs.Laws.{int_value};
ghost use Rattle.osl_value.specs.Types.{only, is_triple, same_base, number_count};
ghost use Rattle.osl_apply.specs.Slots.{seen, is_kept};

use crate::elements::write_floats;
use crate::plain::{float_of, int_of, text_of, triple_of};
use crate::slot::{Kind, Slot};
use crate::unary::whole;
use osl_closure::empty;
use osl_value::{Base, Fx, Memory, Text, Ty, Value};
use std::alloc::Global;

/// The slot of a value that is one int, one float or one triple.
fn small<'a>(value: &Value) -> Option<Slot<'a>>
    ensures { IfSome result (λ slot. seen slot ≡ Of value.now) }
{
    if value.ty().len != 0 {
        return None;
    }
    match value.ty().base {
        Base::Int => Some(Slot::Int(int_of(value)?)),
        Base::Float => Some(Slot::Float(float_of(value))),
        Base::Color => Some(Slot::Triple(Kind::Color, triple_of(value))),
        Base::Point => Some(Slot::Triple(Kind::Point, triple_of(value))),
        Base::Vector => Some(Slot::Triple(Kind::Vector, triple_of(value))),
        Base::Normal => Some(Slot::Triple(Kind::Normal, triple_of(value))),
        Base::Matrix | Base::Str | Base::Closure => None,
    }
}

/// The zero of a type that is one int, one float or one triple.
fn small_zero<'a>(ty: Ty) -> Option<Slot<'a>>
    ensures { IfSome result (λ slot. seen slot ≡ zero_value ty) }
{
    if ty.len != 0 {
        return None;
    }
    let zero = Fx::from_units(0);
    match ty.base {
        Base::Int => Some(Slot::Int(0)),
        Base::Float => Some(Slot::Float(zero)),
        Base::Color => Some(Slot::Triple(Kind::Color, [zero; 3])),
        Base::Point => Some(Slot::Triple(Kind::Point, [zero; 3])),
        Base::Vector => Some(Slot::Triple(Kind::Vector, [zero; 3])),
        Base::Normal => Some(Slot::Triple(Kind::Normal, [zero; 3])),
        Base::Matrix | Base::Str | Base::Closure => None,
    }
}

impl<'a> Slot<'a> {
    ghost use Rattle.std.specs.Prelude.{◌≡◌, ◌≤◌, IsTrue, IfOk, OnOk};
    ghost use Rattle.osl_value.specs.AnyValue.{Of, type_of, zero_value};
    ghost use Rattle.osl_value.specs.Types.{longest_array};
    ghost use Rattle.osl_apply.specs.Slots.{seen, is_kept};

    /// A value that is read where it lies.
    pub fn lent(value: &'a Value) -> Slot<'a>
        ensures { seen result ≡ Of value.now }
    {
        match small(value) {
            Some(slot) => slot,
            None => Slot::Lent(value),
        }
    }

    /// A copy of a value.
    pub fn copied(alloc: Global, value: &Value) -> Result<Slot<'a>, Memory>
        ensures { IfOk result (λ slot. seen slot ≡ Of value.now) }
    {
        match small(value) {
            Some(slot) => Ok(slot),
            None => whole(alloc, value),
        }
    }

    /// The zero of a type: zeros, empty strings, or the empty closure.
    pub fn zero(alloc: Global, ty: Ty) -> Result<Slot<'a>, Memory>
        requires { ty.len ≤ longest_array }
        ensures { IfOk result (λ slot. seen slot ≡ zero_value ty) }
    {
        if let Some(slot) = small_zero(ty) {
            return Ok(slot);
        }
        if let Base::Closure = ty.base {
            return Ok(Slot::Closure(empty()));
        }
        let boxed = Box::new(alloc, Value::zero(alloc, ty)?)?;
        Ok(Slot::Whole(boxed))
    }

    /// Keeps the value as a whole, where it is no closure.
    pub fn settle(&mut self, alloc: Global) -> Result<(), Memory>
        ensures value { OnOk result (seen self.new ≡ seen self.old) }
        ensures kept { OnOk result (IsTrue (is_kept self.new)) }
    {
        if let Some(value) = small_value(alloc, self)? {
            *self = Slot::Whole(Box::new(alloc, value)?);
        }
        Ok(())
    }
}

/// The value of a slot that does not keep it as a whole.
fn small_value(alloc: Global, slot: &Slot<'_>) -> Result<Option<Value>, Memory>
    ensures some { IfOk result (λ value. IfSome value (λ v. Of v ≡ seen slot.now)) }
    ensures none { IfOk result (λ value. value ≡ None → IsTrue (is_kept slot.now)) }
{
    match slot {
        Slot::Int(n) => {
            let value = int_value(alloc, *n)?;
            Ok(Some(value))
        }
        Slot::Float(x) => {
            let value = floats_value(alloc, Base::Float, &[*x])?;
            Ok(Some(value))
        }
        Slot::Triple(kind, floats) => {
            let value = floats_value(alloc, kind.base(), floats)?;
            Ok(Some(value))
        }
        Slot::Str(text) => {
            let value = text_value(alloc, text)?;
            Ok(Some(value))
        }
        Slot::Whole(_) | Slot::Lent(_) | Slot::Closure(_) => Ok(None),
    }
}

/// An int as a value.
fn int_value(alloc: Global, n: i32) -> Result<Value, Memory>
    ensures { IfOk result (λ v. Of v ≡ int_value n) }
{
    let mut value = Value::zero(alloc, Ty::only(Base::Int))?;
    value.set_int(0, n);
    Ok(value)
}

/// A float or a triple as a value.
fn floats_value(alloc: Global, base: Base, floats: &[Fx]) -> Result<Value, Memory>
    requires floats { IsTrue (is_triple base || same_base base Base.Float) }
    requires count { length floats.now ≡ number_count (only base) }
    ensures { IfOk result (λ v. Of v ≡ with_numbers (only base) floats.now) }
{
    let mut value = Value::zero(alloc, Ty::only(base))?;
    write_floats(&mut value, 0, floats);
    Ok(value)
}

/// A string as a value.
fn text_value(alloc: Global, text: &Text) -> Result<Value, Memory>
    ensures { IfOk result (λ v. Of v ≡ with_text (only Base.Str) text.now) }
{
    let mut value = Value::zero(alloc, Ty::only(Base::Str))?;
    let copy = text.copy()?;
    value.set_text(0, copy);
    Ok(value)
}
