//! Operators and casts. OSL specification, section "Operators".

ghost use Rattle.std.specs.Prelude.{◌≡◌, [], ◌∷◌, Some};
ghost use Rattle.osl_typed.specs.Operators.{int};
ghost use Rattle.osl_typed.specs.Typing as spec;
ghost use Rattle.osl_typing.specs.Pieces as pieces;
ghost use Rattle.osl_typing.specs.Says.{Says};

use crate::error::TypeError;
use crate::fitting::fit;
use crate::forms::{boxed_tree, expression, plain_type, tree_of, value, when};
use crate::kinds::{
    INT, TypedOperator, base_named, conversion_of, is_arithmetic, is_convertible, is_number,
    is_numeric, operation,
};
use osl_overload::Kind;
use osl_tree::expr::{BaseType, BinaryOp, PostfixOp, PrefixOp};
use osl_typed::{Form, Found, Increment, Part, Root, TypedExpr, types};
use osl_value::{Base, OpName, Ty};
use sqlite_items::Items;
use std::alloc::Global;

fn one_item(alloc: Global, a: TypedExpr) -> Result<Items<TypedExpr>, TypeError>
    ensures { Says (Some (a ∷ [])) result }
{
    let mut items = Items::new(alloc);
    items.push(a)?;
    Ok(items)
}

fn two_items(alloc: Global, a: TypedExpr, b: TypedExpr) -> Result<Items<TypedExpr>, TypeError>
    ensures { Says (Some (a ∷ b ∷ [])) result }
{
    let mut items = Items::new(alloc);
    items.push(a)?;
    items.push(b)?;
    Ok(items)
}

/// An operation on one operand.
fn apply_one(alloc: Global, name: OpName, ty: Ty, a: Found) -> Result<Found, TypeError>
    ensures { Says (Some (pieces.apply_one name ty a)) result }
{
    let operands = one_item(alloc, tree_of(a))?;
    value(alloc, TypedExpr::Apply(name, ty, operands), Kind::Value(ty))
}

/// `-a` or `+a`, of a number or a triple.
fn signed(alloc: Global, name: OpName, a: Found) -> Result<Found, TypeError>
    ensures { Says (pieces.signed name a) result }
{
    let b = expression(a)?;
    let ty = plain_type(b.kind)?;
    when(is_arithmetic(ty))?;
    apply_one(alloc, name, ty, b)
}

/// `~a`, of an int.
fn complement(alloc: Global, a: Found) -> Result<Found, TypeError>
    ensures { Says (pieces.complement a) result }
{
    let b = expression(a)?;
    let ty = plain_type(b.kind)?;
    when(types::is_only(Base::Int, ty))?;
    apply_one(alloc, OpName::Compl, ty, b)
}

/// `!a`, of a number: it gives an int.
fn negation(alloc: Global, a: Found) -> Result<Found, TypeError>
    ensures { Says (pieces.negation a) result }
{
    let b = expression(a)?;
    let ty = plain_type(b.kind)?;
    when(is_number(ty))?;
    apply_one(alloc, OpName::Not, Ty::only(Base::Int), b)
}

fn is_whole(part: &Part, indices: &[TypedExpr]) -> bool
    ensures { result ≡ spec.is_whole part.now indices.now }
{
    part.fields.len() == 0 && !part.component.is_some() && indices.len() == 0
}

/// The variable, if it is one that may be assigned, and no part of one.
fn whole_variable(form: &Form) -> Result<Root, TypeError>
    ensures { Says (spec.whole_variable form.now) result }
{
    match form {
        Form::Place(root, writable, part, indices) => {
            when(*writable && is_whole(part, indices.as_slice()))?;
            Ok(*root)
        }
        Form::Piece(_, _, _, _) | Form::Whole(_) => Err(TypeError::NoTyping),
    }
}

/// `++` or `--` on an expression.
fn step_of(alloc: Global, step: Increment, b: &Found) -> Result<Found, TypeError>
    ensures { Says (pieces.step_of step b.now) result }
{
    let ty = plain_type(b.kind)?;
    when(is_number(ty))?;
    let root = whole_variable(&b.form)?;
    value(alloc, TypedExpr::Step(step, ty, root), b.kind)
}

/// `++` or `--`, on a whole variable of ints or of floats.
fn stepped(alloc: Global, step: Increment, a: Found) -> Result<Found, TypeError>
    ensures { Says (spec.stepped step a) result }
{
    let b = expression(a)?;
    step_of(alloc, step, &b)
}

/// An operator before its operand.
#[tactic(auto, unfolding(osl_typed::specs::Typing::prefixed))]
pub fn prefixed(alloc: Global, operator: PrefixOp, a: Found) -> Result<Found, TypeError>
    ensures { Says (spec.prefixed operator a) result }
{
    match operator {
        PrefixOp::Minus => signed(alloc, OpName::Neg, a),
        PrefixOp::Plus => signed(alloc, OpName::Assign, a),
        PrefixOp::Complement => complement(alloc, a),
        PrefixOp::Not => negation(alloc, a),
        PrefixOp::Increment => stepped(alloc, Increment::PreIncrement, a),
        PrefixOp::Decrement => stepped(alloc, Increment::PreDecrement, a),
    }
}

/// An operator after its operand.
#[tactic(auto, unfolding(osl_typed::specs::Typing::postfixed))]
pub fn postfixed(alloc: Global, operator: PostfixOp, a: Found) -> Result<Found, TypeError>
    ensures { Says (spec.postfixed operator a) result }
{
    match operator {
        PostfixOp::Increment => stepped(alloc, Increment::PostIncrement, a),
        PostfixOp::Decrement => stepped(alloc, Increment::PostDecrement, a),
    }
}

/// A value made another one of this type.
pub(crate) fn converted(alloc: Global, to: Ty, a: Found) -> Result<Found, TypeError>
    ensures { Says (spec.converted to a) result }
{
    let b = expression(a)?;
    let from = plain_type(b.kind)?;
    when(is_convertible(to, from))?;
    apply_one(alloc, conversion_of(to, from), to, b)
}

/// `(float) a` and the like.
#[tactic(auto, unfolding(osl_typed::specs::Typing::cast))]
pub fn cast(alloc: Global, to: BaseType, a: Found) -> Result<Found, TypeError>
    ensures { Says (spec.cast to a) result }
{
    converted(alloc, Ty::only(base_named(to)), a)
}

/// An operation on two operands.
fn apply_two(
    alloc: Global,
    name: OpName,
    ty: Ty,
    left: TypedExpr,
    right: TypedExpr,
) -> Result<Found, TypeError>
    ensures { Says (Some (pieces.apply_two name ty left right)) result }
{
    let operands = two_items(alloc, left, right)?;
    value(alloc, TypedExpr::Apply(name, ty, operands), Kind::Value(ty))
}

/// An operation on an operand that is as it wants it, and one that is not yet.
fn operated_on(
    alloc: Global,
    o: TypedOperator,
    left: TypedExpr,
    b: Found,
) -> Result<Found, TypeError>
    ensures { Says (pieces.operated_on (pieces.operation_of o) left b) result }
{
    let right = fit(alloc, o.right, b)?;
    apply_two(alloc, o.op, o.ty, left, right)
}

/// An operation on two operands, each to be as it wants it.
fn operated_by(alloc: Global, o: TypedOperator, a: Found, b: Found) -> Result<Found, TypeError>
    ensures { Says (pieces.operated_by (pieces.operation_of o) a b) result }
{
    let left = fit(alloc, o.left, a)?;
    operated_on(alloc, o, left, b)
}

/// The operation that an operator is, on its operands.
fn operated(alloc: Global, operator: BinaryOp, a: Found, b: Found) -> Result<Found, TypeError>
    ensures { Says (spec.operated operator a b) result }
{
    let o = operation(operator, a.kind, b.kind)?;
    operated_by(alloc, o, a, b)
}

fn and_of(alloc: Global, a: Found, b: Found) -> Result<Found, TypeError>
    ensures { Says (Some (spec.value (TypedExpr.And (spec.tree_of a) (spec.tree_of b)) int)) result }
{
    let a = boxed_tree(alloc, a)?;
    let b = boxed_tree(alloc, b)?;
    value(alloc, TypedExpr::And(a, b), INT)
}

fn or_of(alloc: Global, a: Found, b: Found) -> Result<Found, TypeError>
    ensures { Says (Some (spec.value (TypedExpr.Or (spec.tree_of a) (spec.tree_of b)) int)) result }
{
    let a = boxed_tree(alloc, a)?;
    let b = boxed_tree(alloc, b)?;
    value(alloc, TypedExpr::Or(a, b), INT)
}

/// `a && b`, of numbers.
fn and(alloc: Global, a: Found, b: Found) -> Result<Found, TypeError>
    ensures { Says (spec.both_numbers TypedExpr.And a b) result }
{
    when(is_numeric(a.kind) && is_numeric(b.kind))?;
    and_of(alloc, a, b)
}

/// `a || b`, of numbers.
fn or(alloc: Global, a: Found, b: Found) -> Result<Found, TypeError>
    ensures { Says (spec.both_numbers TypedExpr.Or a b) result }
{
    when(is_numeric(a.kind) && is_numeric(b.kind))?;
    or_of(alloc, a, b)
}

/// An operator between two operands.
#[tactic(auto, unfolding(osl_typed::specs::Typing::binary))]
pub fn binary(alloc: Global, operator: BinaryOp, a: Found, b: Found) -> Result<Found, TypeError>
    ensures { Says (spec.binary operator a b) result }
{
    let left = expression(a)?;
    let right = expression(b)?;
    match operator {
        BinaryOp::And => and(alloc, left, right),
        BinaryOp::Or => or(alloc, left, right),
        _ => operated(alloc, operator, left, right),
    }
}
