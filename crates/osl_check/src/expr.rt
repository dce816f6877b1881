//! The typed form of an expression. OSL specification, section "Expressions".

ghost use Rattle.std.specs.Prelude.{◌≡◌, map, Some, option_and_then};
ghost use Rattle.osl_typed.specs.Typing as spec;
ghost use Rattle.osl_value.specs.Types.{only};
ghost use Rattle.osl_typing.specs.Says.{Says, SaysBy};
ghost use Rattle.osl_check.specs.Above.{sight_of};

use crate::above::Sight;
use osl_calls::call;
use osl_names::{Scope, Structures};
use osl_overload::Kind;
use osl_tree::expr::Expr;
use osl_typed::{Found, TypedExpr};
use osl_typing::TypeError;
use osl_typing::assignment::assign;
use osl_typing::branches::choice;
use osl_typing::constructors::construct;
use osl_typing::forms::{expression, in_parens, int_literal, value, variable};
use osl_typing::kinds::FLOAT;
use osl_typing::operators::{binary, cast, postfixed, prefixed};
use osl_typing::suffixes::{component, field, index};
use osl_value::{Base, Ty};
use sqlite_items::Items;
use std::alloc::Global;

/// A literal of a string.
fn text(alloc: Global, bytes: &[u8]) -> Result<Found, TypeError>
    ensures { Says (Some (spec.value (TypedExpr.Text bytes.now) (Kind.Value (only Base.Str)))) result }
{
    let bytes = Items::from_slice(alloc, bytes)?;
    let kind = Kind::Value(Ty::only(Base::Str));
    value(alloc, TypedExpr::Text(bytes), kind)
}

/// A variable by its name.
fn name(alloc: Global, scope: &Scope, word: &[u8]) -> Result<Found, TypeError>
    ensures { Says (spec.name word.now scope.now.bindings) result }
{
    match scope.look(word) {
        Some(binding) => Ok(variable(alloc, binding)),
        None => Err(TypeError::NoTyping),
    }
}

/// An expression in parentheses.
fn parenthesised(alloc: Global, a: Found) -> Result<Found, TypeError>
    ensures { Says (option_and_then (λ b. Some (spec.in_parens b)) (spec.expression a)) result }
{
    in_parens(alloc, expression(a)?)
}

/// A field of a structure, or a component.
#[tactic(auto, unfolding(osl_typed::specs::Typing::field))]
fn selected(
    alloc: Global,
    structures: &Structures,
    word: &[u8],
    a: Found,
) -> Result<Found, TypeError>
    ensures { Says (spec.field structures.now word.now a) result }
{
    let a = expression(a)?;
    match a.kind {
        Kind::Value(ty) => component(alloc, ty, word, a),
        Kind::Structure(structure) => match structures.field(structure, word) {
            Some((number, kind)) => field(alloc, number, kind, a),
            None => Err(TypeError::NoTyping),
        },
        Kind::Void => Err(TypeError::NoTyping),
    }
}

/// The typed form of an expression, or of a row of a matrix, which is none by itself.
#[tactic(auto, using(crate::proofs::TypingLaws::typing_laws))]
#[cycle(typing)]
fn found_form(alloc: Global, sight: &Sight, scope: &Scope, a: &Expr) -> Result<Found, TypeError>
    ensures { Says (spec.found_form (sight_of sight.now) scope.now.bindings a.now) result }
{
    match a {
        Expr::Int(n) => int_literal(alloc, *n),
        Expr::Float(units) => value(alloc, TypedExpr::Float(*units), FLOAT),
        Expr::Text(bytes) => text(alloc, bytes.as_slice()),
        Expr::Name(word) => name(alloc, scope, word.as_slice()),
        Expr::Call(word, args) => {
            let args = arguments(alloc, sight, scope, args.as_slice())?;
            call(alloc, &sight.functions, word.as_slice(), args)
        }
        Expr::Construct(to, args) => {
            let args = arguments(alloc, sight, scope, args.as_slice())?;
            construct(alloc, *to, args)
        }
        Expr::Paren(a) => {
            let a = found_form(alloc, sight, scope, a.get())?;
            parenthesised(alloc, a)
        }
        Expr::Index(a, i) => {
            let a = found_form(alloc, sight, scope, a.get())?;
            let i = found_form(alloc, sight, scope, i.get())?;
            index(alloc, a, i)
        }
        Expr::Field(a, word) => {
            let a = found_form(alloc, sight, scope, a.get())?;
            selected(alloc, &sight.structures, word.as_slice(), a)
        }
        Expr::Postfix(operator, a) => {
            let a = found_form(alloc, sight, scope, a.get())?;
            postfixed(alloc, *operator, a)
        }
        Expr::Prefix(operator, a) => {
            let a = found_form(alloc, sight, scope, a.get())?;
            prefixed(alloc, *operator, a)
        }
        Expr::Cast(to, a) => {
            let a = found_form(alloc, sight, scope, a.get())?;
            cast(alloc, *to, a)
        }
        Expr::Binary(operator, a, b) => {
            let left = found_form(alloc, sight, scope, a.get())?;
            let right = found_form(alloc, sight, scope, b.get())?;
            binary(alloc, *operator, left, right)
        }
        Expr::Choice(c, a, b) => {
            let test = found_form(alloc, sight, scope, c.get())?;
            let first = found_form(alloc, sight, scope, a.get())?;
            let second = found_form(alloc, sight, scope, b.get())?;
            choice(alloc, test, first, second)
        }
        Expr::Assign(operator, a, b) => {
            let left = found_form(alloc, sight, scope, a.get())?;
            let right = found_form(alloc, sight, scope, b.get())?;
            assign(alloc, *operator, left, right)
        }
    }
}

/// The typed forms of arguments, in order.
#[cycle(typing)]
fn arguments(
    alloc: Global,
    sight: &Sight,
    scope: &Scope,
    args: &[Expr],
) -> Result<Vec<Found>, TypeError>
    ensures { SaysBy (λ found. found.items) (spec.sequence (map (spec.found_form (sight_of sight.now) scope.now.bindings) args.now)) result }
{
    let mut found = Vec::new(alloc);
    for arg in args {
        let arg = found_form(alloc, sight, scope, arg)?;
        match found.push(arg) {
            Ok(()) => {}
            Err(_) => return Err(TypeError::Memory),
        }
    }
    Ok(found)
}

/// The typed form of an expression.
pub(crate) fn typing(
    alloc: Global,
    sight: &Sight,
    scope: &Scope,
    a: &Expr,
) -> Result<Found, TypeError>
    ensures { Says (spec.typing (sight_of sight.now) scope.now.bindings a.now) result }
{
    expression(found_form(alloc, sight, scope, a)?)
}
