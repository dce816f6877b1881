//! Which kinds operators take, what they promote to, and which operation each is. OSL specification, section
//! "Operators".

ghost use Rattle.std.specs.Prelude.{◌≡◌, is_some, false};
ghost use Rattle.osl_value.specs.AnyValue as values;
ghost use Rattle.osl_overload.specs.Cost.{promotion_of};
ghost use Rattle.osl_overload.specs.Kinds.{same_kind};
ghost use Rattle.osl_typed.specs.Operators as spec;
ghost use Rattle.osl_typing.specs.Pieces as pieces;
ghost use Rattle.osl_typing.specs.Says.{SaysBy};

use crate::error::TypeError;
use osl_overload::cost::cost;
use osl_overload::{Arg, Kind};
use osl_tree::expr::{AssignOp, BaseType, BinaryOp};
use osl_typed::types;
use osl_value::{Base, OpName, Ty};

/// The kind of an int.
pub const INT: Kind = Kind::Value(Ty {
    base: Base::Int,
    len: 0,
});

/// The kind of a float.
pub const FLOAT: Kind = Kind::Value(Ty {
    base: Base::Float,
    len: 0,
});

/// The kind of a closure.
pub const CLOSURE: Kind = Kind::Value(Ty {
    base: Base::Closure,
    len: 0,
});

/// The kind of a vector.
const VECTOR: Kind = Kind::Value(Ty {
    base: Base::Vector,
    len: 0,
});

/// What an operator is on two kinds: an operation, the type that it gives, and the kinds that it wants of its operands.
#[derive(Clone, Copy, Debug, PartialEq, Eq)]
pub struct TypedOperator {
    pub op: OpName,
    pub ty: Ty,
    pub left: Kind,
    pub right: Kind,
}

/// Whether two kinds are the same.
pub fn same_kind(one: Kind, other: Kind) -> bool
    ensures { result ≡ same_kind one other }
{
    one == other
}

/// Whether a type is `int` or `float`.
pub fn is_number(ty: Ty) -> bool
    ensures { result ≡ values.is_number ty }
{
    types::is_only(Base::Int, ty) || types::is_only(Base::Float, ty)
}

/// Whether a type is a triple and no array.
pub fn is_one_triple(ty: Ty) -> bool
    ensures { result ≡ values.is_one_triple ty }
{
    ty.base.is_triple() && ty.len == 0
}

/// Whether a kind is an int or a float.
pub fn is_numeric(kind: Kind) -> bool
    ensures { result ≡ spec.is_numeric kind }
{
    match kind {
        Kind::Value(ty) => is_number(ty),
        Kind::Structure(_) | Kind::Void => false,
    }
}

/// Whether a type is a number or a triple.
pub fn is_arithmetic(ty: Ty) -> bool
    ensures { result ≡ spec.is_arithmetic ty }
{
    is_number(ty) || is_one_triple(ty)
}

/// The type that reserved words name.
pub fn base_named(base: BaseType) -> Base
    ensures { result ≡ spec.base_named base }
{
    match base {
        BaseType::Int => Base::Int,
        BaseType::Float => Base::Float,
        BaseType::Color => Base::Color,
        BaseType::Point => Base::Point,
        BaseType::Vector => Base::Vector,
        BaseType::Normal => Base::Normal,
        BaseType::Matrix => Base::Matrix,
        BaseType::Str => Base::Str,
        BaseType::Closure => Base::Closure,
    }
}

/// What a closure may be multiplied by.
fn is_factor(kind: Kind) -> bool
    ensures { result ≡ spec.is_type spec.is_factor kind }
{
    match kind {
        Kind::Value(ty) => is_number(ty) || types::is_only(Base::Color, ty),
        Kind::Structure(_) | Kind::Void => false,
    }
}

/// A point, a vector or a normal.
fn is_spatial(kind: Kind) -> bool
    ensures { result ≡ spec.is_type spec.is_spatial_type kind }
{
    match kind {
        Kind::Value(ty) => {
            matches!(ty.base, Base::Point | Base::Vector | Base::Normal) && ty.len == 0
        }
        Kind::Structure(_) | Kind::Void => false,
    }
}

/// Whether a value of one kind is promoted to another one.
fn promotes(from: Kind, to: Kind) -> bool
    requires { same_kind from to ≡ false }
    ensures { result ≡ is_some (promotion_of from to) }
{
    let arg = Arg {
        kind: from,
        zero_literal: false,
        writable: false,
    };
    cost(arg, to).is_some()
}

/// The kind that two kinds become: the same kind stays, two spatial kinds become a vector, and else one promotes to the
/// other.
pub fn joined(a: Kind, b: Kind) -> Option<Kind>
    ensures { result ≡ spec.joined a b }
{
    if same_kind(a, b) {
        Some(a)
    } else if is_spatial(a) && is_spatial(b) {
        Some(VECTOR)
    } else if promotes(a, b) {
        Some(b)
    } else if promotes(b, a) {
        Some(a)
    } else {
        None
    }
}

fn on_type(name: OpName, fits: bool, ty: Ty) -> Option<(OpName, Ty)>
    ensures { result ≡ spec.on_type name fits ty }
{
    if fits { Some((name, ty)) } else { None }
}

/// What is equal or not: numbers, triples, strings and matrices.
fn is_equatable(ty: Ty) -> bool
    ensures { result ≡ pieces.is_equatable ty }
{
    is_arithmetic(ty) || types::is_only(Base::Str, ty) || types::is_only(Base::Matrix, ty)
}

/// The operation that an operator is on operands of one type, and the type that it gives. `&&` and `||` are none.
pub fn given(operator: BinaryOp, ty: Ty) -> Option<(OpName, Ty)>
    ensures { result ≡ spec.given operator ty }
{
    let int = Ty::only(Base::Int);
    match operator {
        BinaryOp::Add => {
            let fits = is_arithmetic(ty) || types::is_only(Base::Closure, ty);
            on_type(OpName::Add, fits, ty)
        }
        BinaryOp::Subtract => on_type(OpName::Sub, is_arithmetic(ty), ty),
        BinaryOp::Multiply => {
            let fits = is_arithmetic(ty) || types::is_only(Base::Matrix, ty);
            on_type(OpName::Mul, fits, ty)
        }
        BinaryOp::Divide => on_type(OpName::Div, is_arithmetic(ty), ty),
        BinaryOp::Remainder => on_type(OpName::IRem, types::is_only(Base::Int, ty), ty),
        BinaryOp::ShiftLeft => on_type(OpName::Shl, types::is_only(Base::Int, ty), ty),
        BinaryOp::ShiftRight => on_type(OpName::Shr, types::is_only(Base::Int, ty), ty),
        BinaryOp::BitAnd => on_type(OpName::BitAnd, types::is_only(Base::Int, ty), ty),
        BinaryOp::BitXor => on_type(OpName::Xor, types::is_only(Base::Int, ty), ty),
        BinaryOp::BitOr => on_type(OpName::BitOr, types::is_only(Base::Int, ty), ty),
        BinaryOp::Less => on_type(OpName::Lt, is_number(ty), int),
        BinaryOp::LessEqual => on_type(OpName::Le, is_number(ty), int),
        BinaryOp::Greater => on_type(OpName::Gt, is_number(ty), int),
        BinaryOp::GreaterEqual => on_type(OpName::Ge, is_number(ty), int),
        BinaryOp::Equal => on_type(OpName::Eq, is_equatable(ty), int),
        BinaryOp::NotEqual => on_type(OpName::Neq, is_equatable(ty), int),
        BinaryOp::And | BinaryOp::Or => None,
    }
}

/// The operator of `x op= e`.
pub fn operator_of(operator: AssignOp) -> Option<BinaryOp>
    ensures { result ≡ spec.operator_of operator }
{
    match operator {
        AssignOp::Set => None,
        AssignOp::Add => Some(BinaryOp::Add),
        AssignOp::Subtract => Some(BinaryOp::Subtract),
        AssignOp::Multiply => Some(BinaryOp::Multiply),
        AssignOp::Divide => Some(BinaryOp::Divide),
        AssignOp::ShiftLeft => Some(BinaryOp::ShiftLeft),
        AssignOp::ShiftRight => Some(BinaryOp::ShiftRight),
        AssignOp::BitAnd => Some(BinaryOp::BitAnd),
        AssignOp::BitOr => Some(BinaryOp::BitOr),
        AssignOp::BitXor => Some(BinaryOp::BitXor),
    }
}

/// Whether a closure is multiplied, by a number or a color on either side.
fn is_scaling(operator: BinaryOp, a: Kind, b: Kind) -> bool
    ensures { result ≡ spec.is_scaling operator a b }
{
    match operator {
        BinaryOp::Multiply => {
            (is_factor(a) && same_kind(b, CLOSURE)) || (same_kind(a, CLOSURE) && is_factor(b))
        }
        _ => false,
    }
}

/// The operation that an operator is on two kinds.
pub fn operation(operator: BinaryOp, a: Kind, b: Kind) -> Result<TypedOperator, TypeError>
    ensures { SaysBy pieces.operation_of (spec.operation operator a b) result }
{
    if is_scaling(operator, a, b) {
        return Ok(TypedOperator {
            op: OpName::Mul,
            ty: Ty::only(Base::Closure),
            left: a,
            right: b,
        });
    }
    let Some(Kind::Value(operands)) = joined(a, b) else {
        return Err(TypeError::NoTyping);
    };
    let Some((op, ty)) = given(operator, operands) else {
        return Err(TypeError::NoTyping);
    };
    let kind = Kind::Value(operands);
    Ok(TypedOperator {
        op,
        ty,
        left: kind,
        right: kind,
    })
}

/// Whether a cast or a constructor of one argument makes a value of one type from one of another: a number from a
/// number, a triple from a number, and any triple from any triple.
pub fn is_convertible(to: Ty, from: Ty) -> bool
    ensures { result ≡ spec.is_convertible to from }
{
    (is_number(to) && is_number(from)) || (is_one_triple(to) && is_arithmetic(from))
}

/// The operation that does it: a float is cut to an int, and else the value is assigned.
pub fn conversion_of(to: Ty, from: Ty) -> OpName
    ensures { result ≡ spec.conversion_of to from }
{
    if types::is_only(Base::Int, to) && types::is_only(Base::Float, from) {
        OpName::ToInt
    } else {
        OpName::Assign
    }
}
