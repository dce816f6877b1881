// Operations on floats, component by component, and comparisons.

ghost use Rattle.std.specs.Prelude.{◌≡◌, IsTrue, [], ◌∷◌, ◌↔◌};
ghost use Rattle.std.specs.Cmp.Lexicographic.{pointwise};
ghost use Rattle.std.specs.Ordering.{int_eq};
ghost use Rattle.osl_value.specs.AnyValue.{type_of, with_numbers};
ghost use Rattle.osl_value.specs.Types.{only, is_triple};
ghost use Rattle.osl_value.specs.Apply.{apply, takes_floats};
ghost use Rattle.osl_value.specs.Geometry.{number_at};
ghost use Rattle.osl_value.specs.Numbers.{truth, value_at};
ghost use Rattle.osl_value.specs.Table.{table};
ghost use Rattle.osl_ops.specs.Operations.{TakesFloats};
ghost use Rattle.osl_apply.specs.Slots.{seen};

use crate::slot::{Kind, Slot};
use osl_ops::{one, three, two};
use osl_value::{Base, Fx, OpName, Ty};

/// An operation on one float or triple.
pub fn on_one<'a>(name: OpName, ty: Ty, a: &Slot<'_>) -> Slot<'a>
    requires count { TakesFloats name 1 }
    requires types { IsTrue (takes_floats (table name) ty (type_of (seen a.now) ∷ [])) }
    ensures { seen result ≡ apply name ty (seen a.now ∷ []) }
{
    let a = a.floats();
    if let Some(kind) = Kind::of(ty.base) {
        let mut out = [Fx::ZERO; 3];
        one(name, a.as_slice(), &mut out);
        return Slot::Triple(kind, out);
    }
    let mut out = [Fx::ZERO; 1];
    one(name, a.as_slice(), &mut out);
    Slot::Float(out[0])
}

/// An operation on two floats or triples.
pub fn on_two<'a>(name: OpName, ty: Ty, a: &Slot<'_>, b: &Slot<'_>) -> Slot<'a>
    requires count { TakesFloats name 2 }
    requires types { IsTrue (takes_floats (table name) ty (type_of (seen a.now) ∷ type_of (seen b.now) ∷ [])) }
    ensures { seen result ≡ apply name ty (seen a.now ∷ seen b.now ∷ []) }
{
    let a = a.floats();
    let b = b.floats();
    if let Some(kind) = Kind::of(ty.base) {
        let mut out = [Fx::ZERO; 3];
        two(name, a.as_slice(), b.as_slice(), &mut out);
        return Slot::Triple(kind, out);
    }
    let mut out = [Fx::ZERO; 1];
    two(name, a.as_slice(), b.as_slice(), &mut out);
    Slot::Float(out[0])
}

/// An operation on three floats or triples.
pub fn on_three<'a>(name: OpName, ty: Ty, a: &Slot<'_>, b: &Slot<'_>, c: &Slot<'_>) -> Slot<'a>
    requires count { TakesFloats name 3 }
    requires types { IsTrue (takes_floats (table name) ty (type_of (seen a.now) ∷ type_of (seen b.now) ∷ type_of (seen c.now) ∷ [])) }
    ensures { seen result ≡ apply name ty (seen a.now ∷ seen b.now ∷ seen c.now ∷ []) }
{
    let a = a.floats();
    let b = b.floats();
    let c = c.floats();
    if let Some(kind) = Kind::of(ty.base) {
        let mut out = [Fx::ZERO; 3];
        three(name, a.as_slice(), b.as_slice(), c.as_slice(), &mut out);
        return Slot::Triple(kind, out);
    }
    let mut out = [Fx::ZERO; 1];
    three(name, a.as_slice(), b.as_slice(), c.as_slice(), &mut out);
    Slot::Float(out[0])
}

/// A triple of a base type.
pub fn triple_slot<'a>(base: Base, floats: [Fx; 3]) -> Slot<'a>
    requires { IsTrue (is_triple base) }
    ensures { seen result ≡ with_numbers (only base) floats }
{
    match Kind::of(base) {
        Some(kind) => Slot::Triple(kind, floats),
        None => unreachable!(),
    }
}

/// 1 where a test holds, else 0.
pub fn truth(holds: bool) -> i32
    ensures { result ≡ truth holds }
{
    if holds { 1 } else { 0 }
}

/// Whether two triples have the same components.
pub fn same_triples(a: &[Fx; 3], b: &[Fx; 3]) -> bool
    ensures { result ≡ pointwise int_eq a.now b.now }
{
    a == b
}

/// Whether two matrices have the same elements.
pub fn same_matrices(a: &[Fx; 16], b: &[Fx; 16]) -> bool
    ensures { result ≡ pointwise int_eq a.now b.now }
{
    a == b
}
