// One operation, executed.

ghost use Rattle.std.specs.Prelude.{◌≡◌, ◌≢◌, ◌<◌, false, IsTrue, IfOk, OnOk, length, slice_set, [], ◌∷◌};
ghost use Rattle.osl_value.specs.AnyValue.{type_of, is_array, with_element, with_numbers};
ghost use Rattle.osl_value.specs.Apply.{apply};
ghost use Rattle.osl_value.specs.Types.{is_only, only};
ghost use Rattle.osl_apply.specs.Elements.{element_value, suits};
ghost use Rattle.osl_apply.specs.Slots.{seen};
ghost use Rattle.osl_apply.specs.Operands.{takes, values, held, held_all, AllBelow, UpdatesFirst};

use crate::binary::binary;
use crate::elements::{Element, element_in, own, write_all, write_element};
use crate::matrices::matrix;
use crate::slot::{Slot, is_matrix};
use crate::ternary::ternary;
use crate::unary::{nullary, unary};
use bumpalo::Bump;
use osl_strops::place;
use osl_value::{Base, Fx, Memory, OpName, Ty};
use std::alloc::Global;

/// Executes an operation: the slot `target` then holds the value that the operation gives on the
/// values of `sources`, as the type of what it held. The other slots stay.
///
/// # Errors
/// `Memory` where an allocation fails; strings, whole arrays and closures take some, and the first write to a matrix or an
/// array that was lent.
pub fn execute<'a>(
    alloc: Global,
    arena: &'a Bump,
    slots: &mut [Slot<'a>],
    name: OpName,
    target: u32,
    sources: &[u32],
) -> Result<(), Memory>
    requires target { target < length slots.old }
    requires places { AllBelow (length slots.old) sources.now }
    requires takes { IsTrue (takes name (type_of (held slots.old target)) (held_all slots.old sources.now)) }
    requires updates { UpdatesFirst name target sources.now }
    ensures { OnOk result (values slots.new ≡ slice_set (values slots.old) target (apply name (type_of (held slots.old target)) (held_all slots.old sources.now))) }
{
    let ty = slots[target as usize].ty();
    if let OpName::AAssign = name {
        assign_element(alloc, slots, target, sources)?;
        return Ok(());
    }
    if is_matrix(ty) {
        let floats = matrix(slots, name, sources);
        write_matrix(alloc, &mut slots[target as usize], &floats)?;
        return Ok(());
    }
    let value = value_of(alloc, arena, slots, name, ty, sources)?;
    slots[target as usize] = value;
    Ok(())
}

/// The value that an operation gives, no matrix.
fn value_of<'a>(
    alloc: Global,
    arena: &'a Bump,
    slots: &[Slot<'a>],
    name: OpName,
    ty: Ty,
    sources: &[u32],
) -> Result<Slot<'a>, Memory>
    requires places { AllBelow (length slots.now) sources.now }
    requires takes { IsTrue (takes name ty (held_all slots.now sources.now)) }
    requires no_matrix { is_only Base.Matrix ty ≡ false }
    requires no_array { name ≢ OpName.AAssign }
    ensures { IfOk result (λ slot. seen slot ≡ apply name ty (held_all slots.now sources.now)) }
{
    match sources {
        [] => nullary(alloc, arena, name, ty),
        [a] => unary(alloc, arena, name, ty, &slots[*a as usize]),
        [a, b] => binary(
            alloc,
            arena,
            name,
            ty,
            &slots[*a as usize],
            &slots[*b as usize],
        ),
        [a, b, c] => ternary(
            alloc,
            name,
            ty,
            &slots[*a as usize],
            &slots[*b as usize],
            &slots[*c as usize],
        ),
        _ => unreachable!(),
    }
}

/// Writes a matrix in place.
fn write_matrix<'a>(alloc: Global, slot: &mut Slot<'a>, floats: &[Fx; 16]) -> Result<(), Memory>
    requires { type_of (seen slot.old) ≡ only Base.Matrix }
    ensures { OnOk result (seen slot.new ≡ with_numbers (only Base.Matrix) floats.now) }
{
    own(alloc, slot)?;
    match slot {
        Slot::Whole(value) => write_all(value, floats),
        _ => unreachable!(),
    }
    Ok(())
}

/// Writes an element of an array in place, at the nearest place to an index.
fn assign_element(
    alloc: Global,
    slots: &mut [Slot<'_>],
    target: u32,
    sources: &[u32],
) -> Result<(), Memory>
    requires target { target < length slots.old }
    requires places { AllBelow (length slots.old) sources.now }
    requires takes { IsTrue (takes OpName.AAssign (type_of (held slots.old target)) (held_all slots.old sources.now)) }
    requires updates { UpdatesFirst OpName.AAssign target sources.now }
    ensures { OnOk result (values slots.new ≡ slice_set (values slots.old) target (apply OpName.AAssign (type_of (held slots.old target)) (held_all slots.old sources.now))) }
{
    let index = sources[1];
    let element = sources[2];
    assign_at(alloc, slots, target, index, element)?;
    Ok(())
}

/// Writes the element that a slot holds into an array, in place, at the nearest place to an index.
fn assign_at(
    alloc: Global,
    slots: &mut [Slot<'_>],
    target: u32,
    index: u32,
    element: u32,
) -> Result<(), Memory>
    requires target { target < length slots.old }
    requires index { index < length slots.old }
    requires element { element < length slots.old }
    requires takes { IsTrue (takes OpName.AAssign (type_of (held slots.old target)) (held slots.old target ∷ held slots.old index ∷ held slots.old element ∷ [])) }
    ensures { OnOk result (values slots.new ≡ slice_set (values slots.old) target (apply OpName.AAssign (type_of (held slots.old target)) (held slots.old target ∷ held slots.old index ∷ held slots.old element ∷ []))) }
{
    let ty = slots[target as usize].ty();
    let place = place(slots[index as usize].int(), ty.len) as usize;
    let new = element_in(alloc, ty, &slots[element as usize])?;
    write_in(alloc, &mut slots[target as usize], place, new)?;
    Ok(())
}

/// Writes an element of the array that a slot holds, in place.
fn write_in(alloc: Global, slot: &mut Slot<'_>, k: usize, element: Element) -> Result<(), Memory>
    requires array { IsTrue (is_array (type_of (seen slot.old))) }
    requires place { k < (type_of (seen slot.old)).len }
    requires element { IsTrue (suits (type_of (seen slot.old)).base element) }
    ensures { OnOk result (seen slot.new ≡ with_element (seen slot.old) k (element_value (type_of (seen slot.old)).base element)) }
{
    own(alloc, slot)?;
    match slot {
        Slot::Whole(array) => write_element(array, k, element),
        _ => unreachable!(),
    }
    Ok(())
}
