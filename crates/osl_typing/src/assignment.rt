//! Assignment, and what is passed for an output. OSL specification, sections "Operators" and "Functions".

ghost use Rattle.std.specs.Prelude.{◌≡◌, Some};
ghost use Rattle.osl_typed.specs.Typing as spec;
ghost use Rattle.osl_typing.specs.Pieces as pieces;
ghost use Rattle.osl_typing.specs.Says.{Says, SaysBy};

use crate::error::TypeError;
use crate::fitting::fit;
use crate::forms::{expression, value, when};
use crate::kinds::{TypedOperator, operation, operator_of};
use osl_overload::cost::cost;
use osl_overload::{Arg, Kind};
use osl_tree::expr::{AssignOp, BinaryOp};
use osl_typed::{Argument, Form, Found, Part, Root, TypedExpr};
use osl_value::Ty;
use sqlite_items::{Boxed, Items};
use std::alloc::Global;

/// A variable, or a part of one, that may be assigned.
#[derive(Drop)]
pub struct Target {
    pub root: Root,
    pub part: Part,
    pub indices: Items<TypedExpr>,
}

/// The variable or part of one, if it is one and may be assigned.
pub fn target_form(form: Form) -> Result<Target, TypeError>
    ensures { SaysBy pieces.target_of (spec.target_form form) result }
{
    match form {
        Form::Place(root, writable, part, indices) => {
            if writable {
                Ok(Target {
                    root,
                    part,
                    indices,
                })
            } else {
                Err(TypeError::NoTyping)
            }
        }
        Form::Piece(_, _, _, _) | Form::Whole(_) => Err(TypeError::NoTyping),
    }
}

/// What is passed for an output: a variable or a part of one that may be assigned.
pub fn output_argument(form: Form) -> Result<Argument, TypeError>
    ensures { Says (pieces.output_argument form) result }
{
    let Target {
        root,
        part,
        indices,
    } = target_form(form)?;
    Ok(Argument::Out(root, part, indices))
}

/// `x = b`, of this kind.
fn set_to(alloc: Global, kind: Kind, target: Target, b: Found) -> Result<Found, TypeError>
    ensures { Says (pieces.set_as kind (pieces.target_of target) b) result }
{
    let right = fit(alloc, kind, b)?;
    let right = Boxed::new(alloc, right)?;
    let Target {
        root,
        part,
        indices,
    } = target;
    value(alloc, TypedExpr::Assign(root, part, indices, right), kind)
}

/// Whether a value of a type fits where a kind is wanted.
fn fits(ty: Ty, wanted: Kind) -> bool
    ensures { result ≡ pieces.fits ty wanted }
{
    let arg = Arg {
        kind: Kind::Value(ty),
        zero_literal: false,
        writable: false,
    };
    cost(arg, wanted).is_some()
}

/// `x += right` and the like, of this kind, by its operation.
fn update(
    alloc: Global,
    o: TypedOperator,
    kind: Kind,
    target: Target,
    right: TypedExpr,
) -> Result<Found, TypeError>
    ensures { Says (Some (pieces.update (pieces.operation_of o) kind (pieces.target_of target) right)) result }
{
    let right = Boxed::new(alloc, right)?;
    let Target {
        root,
        part,
        indices,
    } = target;
    let tree = TypedExpr::Update(o.op, o.ty, root, part, indices, right);
    value(alloc, tree, kind)
}

/// `x += b` and the like, of this kind, by its operation.
fn updated_with(
    alloc: Global,
    o: TypedOperator,
    kind: Kind,
    target: Target,
    b: Found,
) -> Result<Found, TypeError>
    ensures { Says (pieces.updated_with (pieces.operation_of o) kind (pieces.target_of target) b) result }
{
    let right = fit(alloc, o.right, b)?;
    when(fits(o.ty, kind))?;
    update(alloc, o, kind, target, right)
}

/// `x += b` and the like, of this kind.
fn updated_by(
    alloc: Global,
    operator: BinaryOp,
    kind: Kind,
    target: Target,
    b: Found,
) -> Result<Found, TypeError>
    ensures { Says (pieces.updated_as operator kind (pieces.target_of target) b) result }
{
    let o = operation(operator, kind, b.kind)?;
    updated_with(alloc, o, kind, target, b)
}

/// An assignment to a target of this kind, alone or with an operator.
fn stored(
    alloc: Global,
    operator: Option<BinaryOp>,
    kind: Kind,
    target: Target,
    b: Found,
) -> Result<Found, TypeError>
    ensures { Says (pieces.stored_as operator kind (pieces.target_of target) b) result }
{
    match operator {
        None => set_to(alloc, kind, target, b),
        Some(operator) => updated_by(alloc, operator, kind, target, b),
    }
}

/// An assignment of an expression to an expression.
fn assigned(
    alloc: Global,
    operator: AssignOp,
    left: Found,
    right: Found,
) -> Result<Found, TypeError>
    ensures { Says (pieces.assigned operator left right) result }
{
    let Found { form, kind, .. } = left;
    let target = target_form(form)?;
    stored(alloc, operator_of(operator), kind, target, right)
}

/// `a = b`, `a += b` and the like, where `a` is a variable or a part of one that may be assigned.
#[tactic(auto, unfolding(osl_typed::specs::Typing::assign))]
pub fn assign(alloc: Global, operator: AssignOp, a: Found, b: Found) -> Result<Found, TypeError>
    ensures { Says (spec.assign operator a b) result }
{
    let left = expression(a)?;
    let right = expression(b)?;
    assigned(alloc, operator, left, right)
}
