// Operations that write matrices.

ghost use Rattle.std.specs.Prelude.{◌≡◌, ◌≢◌, IsTrue, [], ◌∷◌, length};
ghost use Rattle.osl_value.specs.AnyValue.{type_of, with_numbers};
ghost use Rattle.osl_value.specs.Apply.{apply};
ghost use Rattle.osl_value.specs.Geometry.{diagonal, mxcompassign};
ghost use Rattle.osl_value.specs.Types.{only};
ghost use Rattle.osl_apply.specs.Slots.{seen};
ghost use Rattle.osl_apply.specs.Operands.{takes, held_all, numbers_held, AllBelow, AreNumbers};

use crate::elements::matrix_element;
use crate::slot::Slot;
use osl_strops::{mat_mul, place, transpose};
use osl_value::{Base, Fx, OpName};

/// The matrix that an operation gives on these operands.
pub fn matrix(slots: &[Slot<'_>], name: OpName, sources: &[u32]) -> [Fx; 16]
    requires places { AllBelow (length slots.now) sources.now }
    requires takes { IsTrue (takes name (only Base.Matrix) (held_all slots.now sources.now)) }
    ensures { with_numbers (only Base.Matrix) result ≡ apply name (only Base.Matrix) (held_all slots.now sources.now) }
{
    match sources {
        [a] => of_one(name, &slots[*a as usize]),
        [a, b] => of_two(name, &slots[*a as usize], &slots[*b as usize]),
        [a, b, c, d] => of_four(
            name,
            &slots[*a as usize],
            &slots[*b as usize],
            &slots[*c as usize],
            &slots[*d as usize],
        ),
        _ => of_many(slots, name, sources),
    }
}

fn of_one(name: OpName, a: &Slot<'_>) -> [Fx; 16]
    requires { IsTrue (takes name (only Base.Matrix) (seen a.now ∷ [])) }
    ensures { with_numbers (only Base.Matrix) result ≡ apply name (only Base.Matrix) (seen a.now ∷ []) }
{
    match name {
        OpName::Assign => a.matrix(),
        OpName::Matrix => diagonal(a.number()),
        OpName::Transpose => transpose(&a.matrix()),
        _ => unreachable!(),
    }
}

fn of_two(name: OpName, a: &Slot<'_>, b: &Slot<'_>) -> [Fx; 16]
    requires { IsTrue (takes name (only Base.Matrix) (seen a.now ∷ seen b.now ∷ [])) }
    ensures { with_numbers (only Base.Matrix) result ≡ apply name (only Base.Matrix) (seen a.now ∷ seen b.now ∷ []) }
{
    match name {
        OpName::Mul => mat_mul(&a.matrix(), &b.matrix()),
        OpName::ARef => matrix_element(a, b.int()),
        _ => unreachable!(),
    }
}

/// The number on the diagonal, and 0 elsewhere.
fn diagonal(x: Fx) -> [Fx; 16]
    ensures { result ≡ diagonal x }
{
    let o = Fx::ZERO;
    [x, o, o, o, o, x, o, o, o, o, x, o, o, o, o, x]
}

/// A matrix with another element at the nearest places to a row and a column.
fn with_element(matrix: [Fx; 16], row: i32, column: i32, x: Fx) -> [Fx; 16]
    ensures { result ≡ mxcompassign matrix row column x }
{
    let mut changed = matrix;
    changed[(4 * place(row, 4) + place(column, 4)) as usize] = x;
    changed
}

fn of_four(name: OpName, a: &Slot<'_>, b: &Slot<'_>, c: &Slot<'_>, d: &Slot<'_>) -> [Fx; 16]
    requires { IsTrue (takes name (only Base.Matrix) (seen a.now ∷ seen b.now ∷ seen c.now ∷ seen d.now ∷ [])) }
    ensures { with_numbers (only Base.Matrix) result ≡ apply name (only Base.Matrix) (seen a.now ∷ seen b.now ∷ seen c.now ∷ seen d.now ∷ []) }
{
    with_element(a.matrix(), b.int(), c.int(), d.float())
}

/// The matrix of sixteen numbers: no other operation that writes a matrix takes so many operands.
fn of_many(slots: &[Slot<'_>], name: OpName, sources: &[u32]) -> [Fx; 16]
    requires places { AllBelow (length slots.now) sources.now }
    requires takes { IsTrue (takes name (only Base.Matrix) (held_all slots.now sources.now)) }
    requires not_one { length sources.now ≢ 1 }
    requires not_two { length sources.now ≢ 2 }
    requires not_four { length sources.now ≢ 4 }
    ensures { with_numbers (only Base.Matrix) result ≡ apply name (only Base.Matrix) (held_all slots.now sources.now) }
{
    by_rows(slots, sources)
}

/// The matrix of sixteen numbers.
fn by_rows(slots: &[Slot<'_>], sources: &[u32]) -> [Fx; 16]
    requires places { AllBelow (length slots.now) sources.now }
    requires count { length sources.now ≡ 16 }
    requires numbers { AreNumbers slots.now sources.now }
    ensures { result ≡ numbers_held slots.now sources.now }
{
    let mut matrix = [Fx::ZERO; 16];
    for k in 0..16usize {
        matrix[k] = slots[sources[k] as usize].number();
    }
    matrix
}
