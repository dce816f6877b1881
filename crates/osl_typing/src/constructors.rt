//! Constructors. OSL specification, section "Data types".

ghost use Rattle.std.specs.Prelude.{◌≡◌, map, Some};
ghost use Rattle.std.specs.List.{list_any};
ghost use Rattle.osl_typed.specs.Typing as spec;
ghost use Rattle.osl_typing.specs.Pieces as pieces;
ghost use Rattle.osl_typing.specs.Says.{Says, SaysBy};

use crate::error::TypeError;
use crate::forms::{tree_of, value, when};
use crate::kinds::{base_named, is_numeric, is_one_triple};
use crate::operators::converted;
use osl_overload::Kind;
use osl_tree::expr::BaseType;
use osl_typed::{Found, TypedExpr, types};
use osl_value::{Base, OpName, Ty};
use sqlite_items::Items;
use std::alloc::Global;

fn has_row(args: &[Found]) -> bool
    ensures { result ≡ list_any (λ a. a.is_row) args.now }
{
    args.iter().any(|a| a.is_row)
}

/// The arguments, if each is an expression: a row of a matrix is none.
#[tactic(auto, using(crate::proofs::Arguments::all_expressions, crate::proofs::Arguments::no_expressions))]
pub fn expressions(args: Vec<Found>) -> Result<Vec<Found>, TypeError>
    ensures { SaysBy (λ args. args.items) (spec.sequence (map spec.expression args.items)) result }
{
    if has_row(args.as_slice()) {
        Err(TypeError::NoTyping)
    } else {
        Ok(args)
    }
}

fn are_numbers(args: &[Found]) -> bool
    ensures { result ≡ spec.are_numbers args.now }
{
    args.iter().all(|a| is_numeric(a.kind))
}

/// The typed trees of the arguments, in order.
fn trees(alloc: Global, args: Vec<Found>) -> Result<Items<TypedExpr>, TypeError>
    ensures { Says (Some (spec.trees args.items)) result }
{
    let mut trees = Items::new(alloc);
    for a in args {
        let tree = tree_of(a);
        trees.push(tree)?;
    }
    Ok(trees)
}

/// A value made of numbers.
fn made_of(alloc: Global, name: OpName, ty: Ty, args: Vec<Found>) -> Result<Found, TypeError>
    ensures { Says (spec.made_of name ty args.items) result }
{
    when(are_numbers(args.as_slice()))?;
    let operands = trees(alloc, args)?;
    value(alloc, TypedExpr::Apply(name, ty, operands), Kind::Value(ty))
}

/// What a cast makes of the one argument.
#[tactic(auto, using(crate::proofs::Arguments::alone))]
fn converted_alone(alloc: Global, ty: Ty, args: Vec<Found>) -> Result<Found, TypeError>
    ensures { Says (pieces.converted_alone ty args.items) result }
{
    let mut args = args;
    when(args.len() == 1)?;
    match args.pop() {
        Some(a) => converted(alloc, ty, a),
        None => Err(TypeError::NoTyping),
    }
}

fn construct_from(alloc: Global, ty: Ty, args: Vec<Found>) -> Result<Found, TypeError>
    ensures { Says (spec.construct_from ty args.items) result }
{
    let count = args.len();
    if types::is_only(Base::Matrix, ty) && (count == 1 || count == 16) {
        made_of(alloc, OpName::Matrix, ty, args)
    } else if is_one_triple(ty) && count == 3 {
        made_of(alloc, OpName::Triple, ty, args)
    } else {
        converted_alone(alloc, ty, args)
    }
}

/// `color(a, b, c)` and the like: a matrix of one number or of 16, a triple of three, and else what a cast makes of one
/// value.
#[tactic(auto, unfolding(osl_typed::specs::Typing::construct))]
pub fn construct(alloc: Global, to: BaseType, args: Vec<Found>) -> Result<Found, TypeError>
    ensures { Says (spec.construct to args.items) result }
{
    let args = expressions(args)?;
    construct_from(alloc, Ty::only(base_named(to)), args)
}
