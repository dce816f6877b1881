//! The statements of a body. OSL specification, section "Declarations, statements and blocks".

ghost use Rattle.std.specs.Prelude.{◌≡◌, false, map, OnOk};
ghost use Rattle.osl_typed.specs.BodyTyping as spec;
ghost use Rattle.osl_typing.specs.Says.{Says};
ghost use Rattle.osl_names.specs.Kept.{Keeps};
ghost use Rattle.osl_check.specs.Above.{sight_of};
ghost use Rattle.osl_check.specs.Adds.{Adds};
ghost use Rattle.osl_check.specs.BodyParts.{around, in_sight, heading, repeated, block};

use crate::above::Sight;
use crate::declarations::{declare_all, fitted};
use crate::expr::typing;
use osl_names::Scope;
use osl_overload::Kind;
use osl_tree::expr::Expr;
use osl_tree::stmt::{ForStart, Stmt};
use osl_typed::{TypedExpr, TypedForStart, TypedStmt};
use osl_typing::TypeError;
use osl_typing::forms::{tree_of, when};
use osl_typing::kinds::{is_numeric, same_kind};
use sqlite_items::{Boxed, Items};
use std::alloc::Global;

fn evaluated(alloc: Global, sight: &Sight, scope: &Scope, a: &Expr) -> Result<TypedExpr, TypeError>
    ensures { Says (spec.evaluated (in_sight (sight_of sight.now)) scope.now a.now) result }
{
    Ok(tree_of(typing(alloc, sight, scope, a)?))
}

fn maybe_evaluated(
    alloc: Global,
    sight: &Sight,
    scope: &Scope,
    a: &Option<Expr>,
) -> Result<Option<TypedExpr>, TypeError>
    ensures { Says (spec.maybe (spec.evaluated (in_sight (sight_of sight.now)) scope.now) a.now) result }
{
    match a {
        None => Ok(None),
        Some(a) => Ok(Some(evaluated(alloc, sight, scope, a)?)),
    }
}

/// A condition is a number.
fn condition(alloc: Global, sight: &Sight, scope: &Scope, a: &Expr) -> Result<TypedExpr, TypeError>
    ensures { Says (spec.condition (in_sight (sight_of sight.now)) scope.now a.now) result }
{
    let b = typing(alloc, sight, scope, a)?;
    when(is_numeric(b.kind))?;
    Ok(tree_of(b))
}

fn maybe_condition(
    alloc: Global,
    sight: &Sight,
    scope: &Scope,
    a: &Option<Expr>,
) -> Result<Option<TypedExpr>, TypeError>
    ensures { Says (spec.maybe (spec.condition (in_sight (sight_of sight.now)) scope.now) a.now) result }
{
    match a {
        None => Ok(None),
        Some(a) => Ok(Some(condition(alloc, sight, scope, a)?)),
    }
}

/// What a `return` gives: a value of the function's kind, or nothing where that is `void`.
fn returned(
    alloc: Global,
    sight: &Sight,
    scope: &Scope,
    kind: Kind,
    a: &Option<Expr>,
) -> Result<Option<TypedExpr>, TypeError>
    ensures { Says (spec.returned (around (sight_of sight.now) kind) scope.now a.now) result }
{
    let is_void = same_kind(kind, Kind::Void);
    match a {
        None => {
            when(is_void)?;
            Ok(None)
        }
        Some(a) => {
            when(!is_void)?;
            Ok(Some(fitted(alloc, sight, scope, kind, a)?))
        }
    }
}

/// The first part of a `for`.
fn started(
    alloc: Global,
    sight: &Sight,
    first: &ForStart,
    scope: &mut Scope,
) -> Result<TypedForStart, TypeError>
    ensures typed { Adds (spec.started (in_sight (sight_of sight.now)) scope.old first.now) result scope.new }
    ensures keeps { OnOk result (Keeps scope.old scope.new) }
{
    match first {
        ForStart::Nothing => Ok(TypedForStart::Nothing),
        ForStart::Expr(a) => Ok(TypedForStart::Expr(evaluated(alloc, sight, scope, a)?)),
        ForStart::Declare(d) => {
            let all = declare_all(alloc, sight, &d.ty, d.vars.as_slice(), scope)?;
            Ok(TypedForStart::Declare(all))
        }
    }
}

/// The parts in the parentheses of a `for`.
fn heading(
    alloc: Global,
    sight: &Sight,
    first: &ForStart,
    test: &Option<Expr>,
    step: &Option<Expr>,
    scope: &mut Scope,
) -> Result<(TypedForStart, Option<TypedExpr>, Option<TypedExpr>), TypeError>
    ensures typed { Adds (heading (in_sight (sight_of sight.now)) scope.old first.now test.now step.now) result scope.new }
    ensures keeps { OnOk result (Keeps scope.old scope.new) }
{
    let first = started(alloc, sight, first, scope)?;
    let test = maybe_condition(alloc, sight, scope, test)?;
    let step = maybe_evaluated(alloc, sight, scope, step)?;
    Ok((first, test, step))
}

/// The typed form of a statement, in a function that returns this kind, and in a loop or not.
#[tactic(auto, using(crate::proofs::Goings::laws))]
#[cycle(going)]
fn going(
    alloc: Global,
    sight: &Sight,
    kind: Kind,
    in_loop: bool,
    s: &Stmt,
    scope: &mut Scope,
) -> Result<TypedStmt, TypeError>
    ensures typed { Adds (spec.going (around (sight_of sight.now) kind) s.now in_loop scope.old) result scope.new }
    ensures keeps { OnOk result (Keeps scope.old scope.new) }
{
    match s {
        Stmt::Empty => Ok(TypedStmt::Empty),
        Stmt::Block(all) => {
            let all = block(alloc, sight, kind, in_loop, all.as_slice(), scope)?;
            Ok(TypedStmt::Block(all))
        }
        Stmt::Declare(d) => {
            let all = declare_all(alloc, sight, &d.ty, d.vars.as_slice(), scope)?;
            Ok(TypedStmt::Declare(all))
        }
        Stmt::Expr(a) => Ok(TypedStmt::Expr(evaluated(alloc, sight, scope, a)?)),
        Stmt::Break => {
            when(in_loop)?;
            Ok(TypedStmt::Break)
        }
        Stmt::Continue => {
            when(in_loop)?;
            Ok(TypedStmt::Continue)
        }
        Stmt::Return(a) => {
            let a = returned(alloc, sight, scope, kind, a)?;
            Ok(TypedStmt::Return(a))
        }
        Stmt::If(c, a, b) => {
            let c = condition(alloc, sight, scope, c)?;
            let a = inside(alloc, sight, kind, in_loop, a.get(), scope)?;
            match b {
                None => Ok(TypedStmt::If(c, a, None)),
                Some(b) => {
                    let b = inside(alloc, sight, kind, in_loop, b.get(), scope)?;
                    Ok(TypedStmt::If(c, a, Some(b)))
                }
            }
        }
        Stmt::While(c, a) => {
            let c = condition(alloc, sight, scope, c)?;
            let a = inside(alloc, sight, kind, true, a.get(), scope)?;
            Ok(TypedStmt::While(c, a))
        }
        Stmt::DoWhile(a, c) => {
            let a = inside(alloc, sight, kind, true, a.get(), scope)?;
            let c = condition(alloc, sight, scope, c)?;
            Ok(TypedStmt::DoWhile(a, c))
        }
        Stmt::For(first, test, step, a) => {
            let count = scope.count();
            scope.enter()?;
            let head = heading(alloc, sight, first, test, step, scope)?;
            let s = repeated(alloc, sight, kind, a.get(), head, scope)?;
            scope.leave(count);
            Ok(s)
        }
    }
}

/// A `for` whose parentheses are read.
#[cycle(going)]
fn repeated(
    alloc: Global,
    sight: &Sight,
    kind: Kind,
    a: &Stmt,
    head: (TypedForStart, Option<TypedExpr>, Option<TypedExpr>),
    scope: &mut Scope,
) -> Result<TypedStmt, TypeError>
    ensures typed { Adds (repeated (around (sight_of sight.now) kind) head a.now scope.old) result scope.new }
    ensures keeps { OnOk result (Keeps scope.old scope.new) }
{
    let a = inside(alloc, sight, kind, true, a, scope)?;
    let (first, test, step) = head;
    Ok(TypedStmt::For(first, test, step, a))
}

/// A statement that is a block of its own.
#[cycle(going)]
fn inside(
    alloc: Global,
    sight: &Sight,
    kind: Kind,
    in_loop: bool,
    s: &Stmt,
    scope: &mut Scope,
) -> Result<Boxed<TypedStmt>, TypeError>
    ensures typed { Adds (spec.inside (spec.going (around (sight_of sight.now) kind) s.now) in_loop scope.old) result scope.new }
    ensures keeps { OnOk result (Keeps scope.old scope.new) }
{
    let count = scope.count();
    scope.enter()?;
    let s = going(alloc, sight, kind, in_loop, s, scope)?;
    scope.leave(count);
    Ok(Boxed::new(alloc, s)?)
}

/// One after the other.
#[cycle(going)]
fn all_typed(
    alloc: Global,
    sight: &Sight,
    kind: Kind,
    in_loop: bool,
    statements: &[Stmt],
    scope: &mut Scope,
) -> Result<Items<TypedStmt>, TypeError>
    ensures typed { Adds (spec.all_typed (map (spec.going (around (sight_of sight.now) kind)) statements.now) in_loop scope.old) result scope.new }
    ensures keeps { OnOk result (Keeps scope.old scope.new) }
{
    let mut all = Items::new(alloc);
    for s in statements {
        let one = going(alloc, sight, kind, in_loop, s, scope)?;
        all.push(one)?;
    }
    Ok(all)
}

/// A block: after it all names mean what they meant before it.
#[cycle(going)]
fn block(
    alloc: Global,
    sight: &Sight,
    kind: Kind,
    in_loop: bool,
    statements: &[Stmt],
    scope: &mut Scope,
) -> Result<Items<TypedStmt>, TypeError>
    ensures typed { Adds (block (around (sight_of sight.now) kind) statements.now in_loop scope.old) result scope.new }
    ensures keeps { OnOk result (Keeps scope.old scope.new) }
{
    let count = scope.count();
    scope.enter()?;
    let all = all_typed(alloc, sight, kind, in_loop, statements, scope)?;
    scope.leave(count);
    Ok(all)
}

/// The statements of a body whose function returns this kind.
pub(crate) fn body(
    alloc: Global,
    sight: &Sight,
    kind: Kind,
    statements: &[Stmt],
    scope: &mut Scope,
) -> Result<Items<TypedStmt>, TypeError>
    ensures { Adds (spec.body_typed (around (sight_of sight.now) kind) statements.now scope.old) result scope.new }
{
    all_typed(alloc, sight, kind, false, statements, scope)
}
