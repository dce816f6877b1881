//! Indices, fields and components. OSL specification, section "Expressions".

ghost use Rattle.std.specs.Prelude.{◌≡◌, Some};
ghost use Rattle.osl_typed.specs.Typing as spec;
ghost use Rattle.osl_typing.specs.Pieces as pieces;
ghost use Rattle.osl_typing.specs.Says.{Says};

use crate::error::TypeError;
use crate::forms::{expression, tree_of, whole_of};
use crate::kinds::{FLOAT, INT, is_one_triple, same_kind};
use osl_overload::Kind;
use osl_typed::{Form, Found, Part, TypedExpr, types};
use osl_value::{Base, Ty};
use sqlite_items::Items;
use std::alloc::Global;

/// The type of an element or a component, or a row of a matrix.
fn indexed_kind(is_row: bool, kind: Kind) -> Result<(Ty, bool), TypeError>
    ensures { Says (spec.indexed_kind is_row kind) result }
{
    let Kind::Value(ty) = kind else {
        return Err(TypeError::NoTyping);
    };
    let float = Ty::only(Base::Float);
    if is_row {
        Ok((float, false))
    } else if types::is_array(ty) {
        Ok((types::element_type(ty), false))
    } else if is_one_triple(ty) {
        Ok((float, false))
    } else if types::is_only(Base::Matrix, ty) {
        Ok((ty, true))
    } else {
        Err(TypeError::NoTyping)
    }
}

fn with_index(alloc: Global, kind: Kind, i: TypedExpr, form: Form) -> Result<Form, TypeError>
    ensures { Says (Some (spec.with_index kind i form)) result }
{
    match form {
        Form::Place(root, writable, part, mut indices) => {
            indices.push(i)?;
            Ok(Form::Place(root, writable, part, indices))
        }
        Form::Piece(from, a, part, mut indices) => {
            indices.push(i)?;
            Ok(Form::Piece(from, a, part, indices))
        }
        Form::Whole(a) => {
            let mut indices = Items::new(alloc);
            indices.push(i)?;
            Ok(Form::Piece(kind, a, whole_of(alloc, kind), indices))
        }
    }
}

/// `a` with one more index, of this type, and whether that is a row of a matrix.
fn indexed(alloc: Global, a: Found, i: TypedExpr, to: (Ty, bool)) -> Result<Found, TypeError>
    ensures { Says (Some (pieces.indexed a i to)) result }
{
    let form = with_index(alloc, a.kind, i, a.form)?;
    Ok(Found {
        form,
        kind: Kind::Value(to.0),
        zero_literal: false,
        is_row: to.1,
    })
}

/// `a[i]`, where the index is this tree.
fn element(alloc: Global, a: Found, i: TypedExpr) -> Result<Found, TypeError>
    ensures { Says (pieces.element a i) result }
{
    let to = indexed_kind(a.is_row, a.kind)?;
    indexed(alloc, a, i, to)
}

/// `a[i]`, where the index is an int.
fn element_at(alloc: Global, a: Found, number: Found) -> Result<Found, TypeError>
    ensures { Says (pieces.element a (spec.tree_of number)) result }
{
    element(alloc, a, tree_of(number))
}

/// An index, if it is an int.
#[tactic(auto, unfolding(crate::specs::Pieces::int_operand))]
fn int_operand(i: Found) -> Result<Found, TypeError>
    ensures { Says (pieces.int_operand i) result }
{
    let number = expression(i)?;
    if same_kind(number.kind, INT) {
        Ok(number)
    } else {
        Err(TypeError::NoTyping)
    }
}

#[tactic(auto, unfolding(crate::specs::Pieces::index_by))]
fn index_by(alloc: Global, a: Found, i: Found) -> Result<Found, TypeError>
    ensures { Says (pieces.index_by a i) result }
{
    let number = int_operand(i)?;
    element_at(alloc, a, number)
}

/// `a[i]`: an element of an array, a component of a triple, or a row of a matrix, which takes one more index. The index
/// is an int.
pub fn index(alloc: Global, a: Found, i: Found) -> Result<Found, TypeError>
    ensures { Says (spec.index a i) result }
{
    index_by(alloc, a, i)
}

fn found(form: Form, kind: Kind) -> Found
    ensures { result ≡ spec.found form kind }
{
    Found {
        form,
        kind,
        zero_literal: false,
        is_row: false,
    }
}

fn with_field_in(field: u32, kind: Kind, part: Part) -> Result<Part, TypeError>
    ensures { Says (Some (spec.with_field_in field kind part)) result }
{
    let Part {
        mut fields,
        component,
        ..
    } = part;
    fields.push(field)?;
    Ok(Part {
        fields,
        kind,
        component,
    })
}

fn with_field(
    alloc: Global,
    from: Kind,
    field: u32,
    kind: Kind,
    form: Form,
) -> Result<Form, TypeError>
    ensures { Says (Some (spec.with_field from field kind form)) result }
{
    match form {
        Form::Place(root, writable, part, indices) => {
            let part = with_field_in(field, kind, part)?;
            Ok(Form::Place(root, writable, part, indices))
        }
        Form::Piece(origin, a, part, indices) => {
            let part = with_field_in(field, kind, part)?;
            Ok(Form::Piece(origin, a, part, indices))
        }
        Form::Whole(a) => {
            let part = with_field_in(field, kind, whole_of(alloc, from))?;
            Ok(Form::Piece(from, a, part, Items::new(alloc)))
        }
    }
}

/// `a.f` of a structure, where `f` is the field of this number and kind.
pub fn field(alloc: Global, number: u32, kind: Kind, a: Found) -> Result<Found, TypeError>
    ensures { Says (Some (pieces.field number kind a)) result }
{
    Ok(found(with_field(alloc, a.kind, number, kind, a.form)?, kind))
}

/// The number of a component by its name: `.r .g .b` of a color, and `.x .y .z` of a point, a vector or a normal.
fn component_of(ty: Ty, word: &[u8]) -> Option<u32>
    ensures { result ≡ spec.component_of ty word.now }
{
    if types::is_only(Base::Color, ty) {
        match word {
            b"r" => Some(0),
            b"g" => Some(1),
            b"b" => Some(2),
            _ => None,
        }
    } else if is_one_triple(ty) {
        match word {
            b"x" => Some(0),
            b"y" => Some(1),
            b"z" => Some(2),
            _ => None,
        }
    } else {
        None
    }
}

fn with_component_in(c: u32, part: Part) -> Part
    ensures { result ≡ spec.with_component_in c part }
{
    let Part { fields, kind, .. } = part;
    Part {
        fields,
        kind,
        component: Some(c),
    }
}

fn with_component(alloc: Global, kind: Kind, c: u32, form: Form) -> Form
    ensures { result ≡ spec.with_component kind c form }
{
    match form {
        Form::Place(root, writable, part, indices) => {
            Form::Place(root, writable, with_component_in(c, part), indices)
        }
        Form::Piece(from, a, part, indices) => {
            Form::Piece(from, a, with_component_in(c, part), indices)
        }
        Form::Whole(a) => {
            let part = with_component_in(c, whole_of(alloc, kind));
            Form::Piece(kind, a, part, Items::new(alloc))
        }
    }
}

/// `a.x` of a triple of this type, which is the type of `a`.
pub fn component(alloc: Global, ty: Ty, word: &[u8], a: Found) -> Result<Found, TypeError>
    ensures { Says (pieces.component ty word.now a) result }
{
    match component_of(ty, word) {
        None => Err(TypeError::NoTyping),
        Some(c) => Ok(found(with_component(alloc, a.kind, c, a.form), FLOAT)),
    }
}
