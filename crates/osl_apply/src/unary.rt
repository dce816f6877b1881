// Operations on no operand and on one, but those that write matrices.

ghost use Rattle.std.specs.Prelude.{◌≡◌, ◌≢◌, ◌≤◌, pos, false, IsTrue, IfOk, [], ◌∷◌};
ghost use Rattle.osl_value.specs.AnyValue.{Of, type_of, is_assignable, converted};
ghost use Rattle.osl_value.specs.Apply.{apply};
ghost use Rattle.osl_value.specs.Geometry.{length_of, normalize};
ghost use Rattle.osl_value.specs.Numbers.{int_not};
ghost use Rattle.osl_value.specs.Types.{is_only, longest_array};
ghost use Rattle.osl_apply.specs.Slots.{seen, is_whole};
ghost use Rattle.osl_apply.specs.Operands.{takes};

use crate::closures::{bare, facing, labelled};
use crate::floats::{on_one, triple_slot, truth};
use crate::slot::Slot;
use bumpalo::Bump;
use osl_closure::empty;
use osl_ops::{geometric, ints};
use osl_strops::strlen;
use osl_value::{Base, Fx, Memory, OpName, Primitive, Ty, Value};
use std::alloc::Global;

/// The value of an operation without operands.
pub fn nullary<'a>(alloc: Global, arena: &'a Bump, name: OpName, ty: Ty) -> Result<Slot<'a>, Memory>
    requires takes { IsTrue (takes name ty []) }
    requires no_matrix { is_only Base.Matrix ty ≡ false }
    ensures { IfOk result (λ slot. seen slot ≡ apply name ty []) }
{
    match name {
        OpName::Empty => Ok(Slot::Closure(empty())),
        OpName::ClEmission => bare(alloc, arena, Primitive::Emission),
        OpName::ClBackground => bare(alloc, arena, Primitive::Background),
        OpName::ClHoldout => bare(alloc, arena, Primitive::Holdout),
        OpName::ClTransparent => bare(alloc, arena, Primitive::Transparent),
        _ => unreachable!(),
    }
}

/// The value of an operation on one operand.
pub fn unary<'a>(
    alloc: Global,
    arena: &'a Bump,
    name: OpName,
    ty: Ty,
    a: &Slot<'a>,
) -> Result<Slot<'a>, Memory>
    requires takes { IsTrue (takes name ty (seen a.now ∷ [])) }
    requires no_matrix { is_only Base.Matrix ty ≡ false }
    ensures { IfOk result (λ slot. seen slot ≡ apply name ty (seen a.now ∷ [])) }
{
    if let OpName::Assign = name {
        return assigned(alloc, ty, a);
    }
    if let Some(n) = a.as_int() {
        return Ok(Slot::Int(ints(name, n, 0)));
    }
    match name {
        OpName::Neg
        | OpName::Abs
        | OpName::Sign
        | OpName::Floor
        | OpName::Ceil
        | OpName::Round
        | OpName::Trunc
        | OpName::Sqrt
        | OpName::InverseSqrt => Ok(on_one(name, ty, a)),
        OpName::ToInt => Ok(Slot::Int(a.float().to_int())),
        OpName::Not => Ok(Slot::Int(negation(a.float()))),
        OpName::ArrayLength => Ok(Slot::Int(array_length(a.ty()))),
        OpName::Length => Ok(Slot::Float(length(a.triple()))),
        OpName::Normalize => Ok(triple_slot(ty.base, normalize(a.triple()))),
        OpName::StrLen => Ok(Slot::Int(strlen(a.text()))),
        OpName::ClDiffuse => facing(alloc, arena, Primitive::Diffuse, a.triple()),
        OpName::ClTranslucent => facing(alloc, arena, Primitive::Translucent, a.triple()),
        OpName::ClDebug => labelled(arena, a.text()),
        _ => unreachable!(),
    }
}

/// A copy, converted to the written type.
fn assigned<'a>(alloc: Global, ty: Ty, a: &Slot<'a>) -> Result<Slot<'a>, Memory>
    requires fits { IsTrue (is_assignable ty (type_of (seen a.now))) }
    requires no_matrix { is_only Base.Matrix ty ≡ false }
    ensures { IfOk result (λ slot. seen slot ≡ converted ty (seen a.now)) }
{
    if ty.len != 0 {
        return copied(alloc, a);
    }
    match ty.base {
        Base::Int => Ok(Slot::Int(a.int())),
        Base::Float => Ok(Slot::Float(a.number())),
        Base::Str => Ok(Slot::Str(a.text().copy()?)),
        Base::Closure => Ok(Slot::Closure(a.node())),
        Base::Color | Base::Point | Base::Vector | Base::Normal => {
            Ok(triple_slot(ty.base, a.promoted().spread()))
        }
        Base::Matrix => unreachable!(),
    }
}

/// A copy of an array.
fn copied<'a>(alloc: Global, a: &Slot<'_>) -> Result<Slot<'a>, Memory>
    requires { (type_of (seen a.now)).len ≢ 0 }
    ensures { IfOk result (λ slot. seen slot ≡ seen a.now) }
{
    match a {
        Slot::Whole(value) => whole(alloc, value),
        Slot::Lent(value) => whole(alloc, value),
        Slot::Int(_) | Slot::Float(_) | Slot::Triple(_, _) | Slot::Str(_) | Slot::Closure(_) => {
            unreachable!()
        }
    }
}

/// A slot of its own with an equal value.
pub fn whole<'a>(alloc: Global, value: &Value) -> Result<Slot<'a>, Memory>
    ensures value { IfOk result (λ slot. seen slot ≡ Of value.now) }
    ensures whole { IfOk result (λ slot. IsTrue (is_whole slot)) }
{
    let copy = value.copy()?;
    let boxed = Box::new(alloc, copy)?;
    Ok(Slot::Whole(boxed))
}

/// How many elements an array has.
fn array_length(ty: Ty) -> i32
    requires { ty.len ≤ longest_array }
    ensures { result ≡ pos ty.len }
{
    ty.len as i32
}

/// 1 where a float is 0, else 0.
fn negation(x: Fx) -> i32
    ensures { result ≡ int_not x }
{
    truth(x == Fx::ZERO)
}

fn length(a: [Fx; 3]) -> Fx
    ensures { result ≡ length_of a }
{
    let mut out = [Fx::ZERO; 1];
    geometric(OpName::Length, &a, &[], &mut out);
    out[0]
}

fn normalize(a: [Fx; 3]) -> [Fx; 3]
    ensures { result ≡ normalize a }
{
    let mut out = [Fx::ZERO; 3];
    geometric(OpName::Normalize, &a, &[], &mut out);
    out
}
