//! What is known of an expression, as its suffixes build it up.

ghost use Rattle.std.specs.Prelude.{◌≡◌, [], None, Some};
ghost use Rattle.osl_typed.specs.Typing as spec;
ghost use Rattle.osl_typing.specs.Says.{Says};

use crate::error::TypeError;
use crate::kinds::INT;
use osl_overload::{Arg, Kind};
use osl_typed::{Binding, Form, Found, Part, Root, TypedExpr};
use osl_value::Ty;
use sqlite_items::{Boxed, Items};
use std::alloc::Global;

/// Goes on where a test holds.
pub fn when(holds: bool) -> Result<(), TypeError>
    ensures { Says (spec.when holds) result }
{
    if holds {
        Ok(())
    } else {
        Err(TypeError::NoTyping)
    }
}

/// The type that a kind is: a structure and no value are none.
pub fn plain_type(kind: Kind) -> Result<Ty, TypeError>
    ensures { Says (spec.plain_type kind) result }
{
    match kind {
        Kind::Value(ty) => Ok(ty),
        Kind::Structure(_) | Kind::Void => Err(TypeError::NoTyping),
    }
}

/// An expression that is no variable and no part of one.
pub fn value(alloc: Global, tree: TypedExpr, kind: Kind) -> Result<Found, TypeError>
    ensures { Says (Some (spec.value tree kind)) result }
{
    let tree = Boxed::new(alloc, tree)?;
    Ok(Found {
        form: Form::Whole(tree),
        kind,
        zero_literal: false,
        is_row: false,
    })
}

/// The literal of an int. The literal `0` may mean the empty closure.
pub fn int_literal(alloc: Global, n: i32) -> Result<Found, TypeError>
    ensures { Says (Some (spec.int_literal n)) result }
{
    let tree = Boxed::new(alloc, TypedExpr::Int(n))?;
    Ok(Found {
        form: Form::Whole(tree),
        kind: INT,
        zero_literal: n == 0,
        is_row: false,
    })
}

/// The way to the whole of something of a kind.
pub fn whole_of(alloc: Global, kind: Kind) -> Part
    ensures { result ≡ spec.whole_of kind }
{
    Part {
        fields: Items::new(alloc),
        kind,
        component: None,
    }
}

/// A variable.
pub fn variable(alloc: Global, b: &Binding) -> Found
    ensures { result ≡ spec.variable b.now }
{
    Found {
        form: Form::Place(
            b.root,
            b.writable,
            whole_of(alloc, b.kind),
            Items::new(alloc),
        ),
        kind: b.kind,
        zero_literal: false,
        is_row: false,
    }
}

/// The typed tree of what was found.
pub fn tree_of(a: Found) -> TypedExpr
    ensures { result ≡ spec.tree_of a }
{
    match a.form {
        Form::Place(root, _, part, indices) => TypedExpr::Variable(root, part, indices),
        Form::Piece(kind, tree, part, indices) => TypedExpr::PartOf(kind, tree, part, indices),
        Form::Whole(tree) => tree.into_inner(),
    }
}

/// The typed tree of what was found, boxed.
pub fn boxed_tree(alloc: Global, a: Found) -> Result<Boxed<TypedExpr>, TypeError>
    ensures { Says (Some (spec.tree_of a)) result }
{
    match a.form {
        Form::Place(root, _, part, indices) => {
            Ok(Boxed::new(alloc, TypedExpr::Variable(root, part, indices))?)
        }
        Form::Piece(kind, tree, part, indices) => {
            Ok(Boxed::new(alloc, TypedExpr::PartOf(kind, tree, part, indices))?)
        }
        Form::Whole(tree) => Ok(tree),
    }
}

/// The expression that was found: a row of a matrix is none.
pub fn expression(a: Found) -> Result<Found, TypeError>
    ensures { Says (spec.expression a) result }
{
    if a.is_row {
        Err(TypeError::NoTyping)
    } else {
        Ok(a)
    }
}

/// What passing it looks at.
pub fn as_argument(a: &Found) -> Arg
    ensures { result ≡ spec.as_argument a.now }
{
    let writable = match &a.form {
        Form::Place(_, writable, _, _) => *writable,
        Form::Piece(_, _, _, _) | Form::Whole(_) => false,
    };
    Arg {
        kind: a.kind,
        zero_literal: a.zero_literal,
        writable,
    }
}

/// The variable that it is, or is a part of.
pub fn root_of(a: &Found) -> Option<Root>
    ensures { result ≡ spec.root_of a.now }
{
    match &a.form {
        Form::Place(root, _, _, _) => Some(*root),
        Form::Piece(_, _, _, _) | Form::Whole(_) => None,
    }
}

/// `(a)`: a parenthesised variable is no variable.
pub fn in_parens(alloc: Global, a: Found) -> Result<Found, TypeError>
    ensures { Says (Some (spec.in_parens a)) result }
{
    let kind = a.kind;
    let tree = boxed_tree(alloc, a)?;
    value(alloc, TypedExpr::Paren(kind, tree), kind)
}
