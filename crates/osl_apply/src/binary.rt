// Operations on two operands, but those that write matrices.

ghost use Rattle.std.specs.Prelude.{◌≡◌, false, IsTrue, IfOk, MatchOption, [], ◌∷◌};
ghost use Rattle.osl_value.specs.AnyValue.{type_of};
ghost use Rattle.osl_value.specs.Laws.{int_value};
ghost use Rattle.osl_value.specs.Apply.{apply};
ghost use Rattle.osl_value.specs.Geometry.{number_at, compref, dot, cross, distance};
ghost use Rattle.osl_value.specs.Numbers.{value_at};
ghost use Rattle.osl_value.specs.Table.{table};
ghost use Rattle.osl_value.specs.Types.{is_only, same_base};
ghost use Rattle.osl_ops.specs.Operations.{TakesFloats};
ghost use Rattle.osl_apply.specs.Slots.{seen};
ghost use Rattle.osl_apply.specs.Operands.{takes, is_ordering, is_comparison, are_ints, are_comparable, are_same};

use crate::closures::{measured, product, sum};
use crate::elements::read_element;
use crate::floats::{on_two, same_matrices, same_triples, triple_slot, truth};
use crate::slot::{Slot, is_closure};
use bumpalo::Bump;
use osl_ops::{geometric, ints};
use osl_strops::{concat, endswith, getchar, place, startswith, transform};
use osl_value::{Base, Fx, Memory, OpName, Primitive, Ty};
use std::alloc::Global;

/// The value of an operation on two operands.
pub fn binary<'a>(
    alloc: Global,
    arena: &'a Bump,
    name: OpName,
    ty: Ty,
    a: &Slot<'a>,
    b: &Slot<'a>,
) -> Result<Slot<'a>, Memory>
    requires takes { IsTrue (takes name ty (seen a.now ∷ seen b.now ∷ [])) }
    requires no_matrix { is_only Base.Matrix ty ≡ false }
    ensures { IfOk result (λ slot. seen slot ≡ apply name ty (seen a.now ∷ seen b.now ∷ [])) }
{
    if let Some((m, n)) = both_ints(a, b) {
        return Ok(Slot::Int(ints(name, m, n)));
    }
    match name {
        OpName::Add
        | OpName::Sub
        | OpName::Mul
        | OpName::Div
        | OpName::Min
        | OpName::Max
        | OpName::Fmod
        | OpName::Mod
        | OpName::Step => arithmetic(arena, name, ty, a, b),
        OpName::Eq => Ok(Slot::Int(truth(same(a, b)))),
        OpName::Neq => Ok(Slot::Int(truth(!same(a, b)))),
        OpName::Lt | OpName::Gt | OpName::Le | OpName::Ge => {
            Ok(Slot::Int(ordered(name, a.float(), b.float())))
        }
        _ => binary_other(alloc, arena, name, ty, a, b),
    }
}

/// The two ints, where both operands are ints.
fn both_ints(a: &Slot<'_>, b: &Slot<'_>) -> Option<(i32, i32)>
    ensures { MatchOption result (are_ints (type_of (seen a.now)) (type_of (seen b.now)) ≡ false) (λ ints. (seen a.now ≡ int_value ints.0) × (seen b.now ≡ int_value ints.1)) }
{
    let m = a.as_int()?;
    let n = b.as_int()?;
    Some((m, n))
}

fn is_point(base: Base) -> bool
    ensures { result ≡ same_base base Base.Point }
{
    matches!(base, Base::Point)
}

/// The value of an operation on two operands that are not compared and not added or the like.
fn binary_other<'a>(
    alloc: Global,
    arena: &'a Bump,
    name: OpName,
    ty: Ty,
    a: &Slot<'a>,
    b: &Slot<'a>,
) -> Result<Slot<'a>, Memory>
    requires takes { IsTrue (takes name ty (seen a.now ∷ seen b.now ∷ [])) }
    requires no_matrix { is_only Base.Matrix ty ≡ false }
    requires no_ints { are_ints (type_of (seen a.now)) (type_of (seen b.now)) ≡ false }
    requires no_arithmetic { TakesFloats name 2 → ⊥ }
    requires no_comparison { is_comparison name ≡ false }
    ensures { IfOk result (λ slot. seen slot ≡ apply name ty (seen a.now ∷ seen b.now ∷ [])) }
{
    match name {
        OpName::ARef => read_element(alloc, a, b.int()),
        OpName::CompRef => Ok(Slot::Float(component(&a.triple(), b.int()))),
        OpName::Dot => Ok(Slot::Float(dot(&a.triple(), &b.triple()))),
        OpName::Distance => Ok(Slot::Float(distance(&a.triple(), &b.triple()))),
        OpName::Cross => Ok(triple_slot(ty.base, cross(&a.triple(), &b.triple()))),
        OpName::Transform => Ok(triple_slot(
            ty.base,
            transform(&a.matrix(), &b.triple(), is_point(ty.base)),
        )),
        OpName::Concat => Ok(Slot::Str(concat(alloc, a.text(), b.text())?)),
        OpName::StartsWith => Ok(Slot::Int(startswith(a.text(), b.text()))),
        OpName::EndsWith => Ok(Slot::Int(endswith(a.text(), b.text()))),
        OpName::GetChar => Ok(Slot::Int(getchar(a.text(), b.int()))),
        OpName::ClOrenNayar => measured(alloc, arena, Primitive::OrenNayar, a.triple(), b.number()),
        OpName::ClReflection => {
            measured(alloc, arena, Primitive::Reflection, a.triple(), b.number())
        }
        OpName::ClRefraction => {
            measured(alloc, arena, Primitive::Refraction, a.triple(), b.number())
        }
        _ => unreachable!(),
    }
}

/// The operations on two floats or triples, and the sum and the product of closures.
fn arithmetic<'a>(
    arena: &'a Bump,
    name: OpName,
    ty: Ty,
    a: &Slot<'a>,
    b: &Slot<'a>,
) -> Result<Slot<'a>, Memory>
    requires takes { IsTrue (takes name ty (seen a.now ∷ seen b.now ∷ [])) }
    requires no_matrix { is_only Base.Matrix ty ≡ false }
    requires no_ints { are_ints (type_of (seen a.now)) (type_of (seen b.now)) ≡ false }
    requires arithmetic { TakesFloats name 2 }
    ensures { IfOk result (λ slot. seen slot ≡ apply name ty (seen a.now ∷ seen b.now ∷ [])) }
{
    if !is_closure(ty) {
        return Ok(on_two(name, ty, a, b));
    }
    if let OpName::Add = name {
        return sum(arena, a.node(), b.node());
    }
    if is_closure(b.ty()) {
        product(arena, a.promoted(), b.node())
    } else {
        product(arena, b.promoted(), a.node())
    }
}

/// Whether two operands are equal: floats and triples, a float being repeated, matrices or strings.
fn same(a: &Slot<'_>, b: &Slot<'_>) -> bool
    requires { IsTrue (are_comparable (type_of (seen a.now)) (type_of (seen b.now))) }
    ensures { result ≡ are_same (seen a.now) (seen b.now) }
{
    match a.ty().base {
        Base::Str => a.text().bytes() == b.text().bytes(),
        Base::Matrix => same_matrices(&a.matrix(), &b.matrix()),
        _ => same_triples(&a.floats().spread(), &b.floats().spread()),
    }
}

/// A comparison by order.
fn ordered(name: OpName, a: Fx, b: Fx) -> i32
    requires { IsTrue (is_ordering name) }
    ensures { result ≡ value_at (table name).ints (number_at (a ∷ b ∷ [])) }
{
    match name {
        OpName::Lt => truth(a < b),
        OpName::Gt => truth(a > b),
        OpName::Le => truth(a <= b),
        OpName::Ge => truth(a >= b),
        _ => unreachable!(),
    }
}

/// The component at the nearest place to an index.
pub fn component(triple: &[Fx; 3], index: i32) -> Fx
    ensures { result ≡ compref triple.now index }
{
    triple[place(index, 3) as usize]
}

fn dot(a: &[Fx; 3], b: &[Fx; 3]) -> Fx
    ensures { result ≡ dot a.now b.now }
{
    let mut out = [Fx::ZERO; 1];
    geometric(OpName::Dot, a, b, &mut out);
    out[0]
}

fn distance(a: &[Fx; 3], b: &[Fx; 3]) -> Fx
    ensures { result ≡ distance a.now b.now }
{
    let mut out = [Fx::ZERO; 1];
    geometric(OpName::Distance, a, b, &mut out);
    out[0]
}

fn cross(a: &[Fx; 3], b: &[Fx; 3]) -> [Fx; 3]
    ensures { result ≡ cross a.now b.now }
{
    let mut out = [Fx::ZERO; 3];
    geometric(OpName::Cross, a, b, &mut out);
    out
}
