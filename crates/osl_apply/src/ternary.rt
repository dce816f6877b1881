// Operations on three operands, but those that write matrices.

ghost use Rattle.std.specs.Prelude.{◌≡◌, ◌≢◌, false, IsTrue, IfOk, [], ◌∷◌};
ghost use Rattle.osl_value.specs.AnyValue.{type_of};
ghost use Rattle.osl_value.specs.Apply.{apply};
ghost use Rattle.osl_value.specs.Geometry.{mxcompref, compassign};
ghost use Rattle.osl_value.specs.Numbers.{int_clamp};
ghost use Rattle.osl_value.specs.Types.{is_only};
ghost use Rattle.osl_apply.specs.Slots.{seen};
ghost use Rattle.osl_apply.specs.Operands.{takes};

use crate::floats::{on_three, triple_slot};
use crate::slot::{Slot, is_int};
use osl_ops::ints;
use osl_strops::{place, substr};
use osl_value::{Base, Fx, Memory, OpName, Ty};
use std::alloc::Global;

/// The value of an operation on three operands.
pub fn ternary<'a>(
    alloc: Global,
    name: OpName,
    ty: Ty,
    a: &Slot<'a>,
    b: &Slot<'a>,
    c: &Slot<'a>,
) -> Result<Slot<'a>, Memory>
    requires takes { IsTrue (takes name ty (seen a.now ∷ seen b.now ∷ seen c.now ∷ [])) }
    requires no_matrix { is_only Base.Matrix ty ≡ false }
    requires no_array { name ≢ OpName.AAssign }
    ensures { IfOk result (λ slot. seen slot ≡ apply name ty (seen a.now ∷ seen b.now ∷ seen c.now ∷ [])) }
{
    match name {
        OpName::Clamp => Ok(clamped(ty, a, b, c)),
        OpName::Mix | OpName::SmoothStep => Ok(on_three(name, ty, a, b, c)),
        OpName::Triple => Ok(triple_slot(ty.base, [a.number(), b.number(), c.number()])),
        OpName::CompAssign => Ok(triple_slot(
            ty.base,
            with_component(a.triple(), b.int(), c.float()),
        )),
        OpName::MxCompRef => Ok(Slot::Float(matrix_component(&a.matrix(), b.int(), c.int()))),
        OpName::SubStr => Ok(Slot::Str(substr(alloc, a.text(), b.int(), c.int())?)),
        _ => unreachable!(),
    }
}

/// A number between two others.
fn clamped<'a>(ty: Ty, a: &Slot<'_>, b: &Slot<'_>, c: &Slot<'_>) -> Slot<'a>
    requires { IsTrue (takes OpName.Clamp ty (seen a.now ∷ seen b.now ∷ seen c.now ∷ [])) }
    ensures { seen result ≡ apply OpName.Clamp ty (seen a.now ∷ seen b.now ∷ seen c.now ∷ []) }
{
    if is_int(ty) {
        return Slot::Int(clamp(a.int(), b.int(), c.int()));
    }
    on_three(OpName::Clamp, ty, a, b, c)
}

fn clamp(x: i32, lo: i32, hi: i32) -> i32
    ensures { result ≡ int_clamp x lo hi }
{
    x.max(lo).min(hi)
}

/// A triple with another component at the nearest place to an index.
fn with_component(triple: [Fx; 3], index: i32, x: Fx) -> [Fx; 3]
    ensures { result ≡ compassign triple index x }
{
    let mut changed = triple;
    changed[place(index, 3) as usize] = x;
    changed
}

/// The element of a matrix at the nearest places to a row and a column.
fn matrix_component(matrix: &[Fx; 16], row: i32, column: i32) -> Fx
    ensures { result ≡ mxcompref matrix.now row column }
{
    matrix[(4 * place(row, 4) + place(column, 4)) as usize]
}
