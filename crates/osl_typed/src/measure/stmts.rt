//! The weights of statements.

ghost use Rattle.std.specs.Prelude.{◌≡◌, map};
ghost use Rattle.osl_typed.specs.Measured.{cut};
ghost use Rattle.osl_typed.specs.Seen.{seen};
ghost use Rattle.osl_typed.specs.Sizes as spec;

use crate::expr::TypedExpr;
use crate::measure::exprs::{all, expr};
use crate::sizes::Weight;
use crate::stmt::{Declared, TypedForStart, TypedInit, TypedStmt};
use crate::tables::Tables;
use osl_overload::Kind;

/// A node of a statement.
const STATEMENT: Weight = Weight {
    size: 4,
    slots: 1,
    calls: 0,
};

/// The initialiser of a variable or a parameter of a kind.
pub(crate) fn init(tables: &Tables, kind: Kind, init: &TypedInit) -> Weight
    ensures { result ≡ cut (spec.init_weight (seen tables.now) kind init.now) }
{
    match init {
        TypedInit::Expr(a) => expr(tables, a),
        TypedInit::List(items) => tables.bare(kind).and(all(tables, items.as_slice())),
    }
}

fn declared(tables: &Tables, d: &Declared) -> Weight
    ensures { result ≡ cut (spec.declared_weight (seen tables.now) d.now) }
{
    let begins = match &d.init {
        Some(x) => init(tables, d.kind, x),
        None => Weight::NOTHING,
    };
    tables.valued(d.kind).and(begins)
}

/// The variables of a declaration.
fn all_declared(tables: &Tables, ds: &[Declared]) -> Weight
    ensures { result ≡ cut (spec.all_declared (seen tables.now) ds.now) }
{
    let mut sum = Weight::NOTHING;
    for d in ds {
        sum = sum.and(declared(tables, d));
    }
    sum
}

/// An expression that may be missing.
fn maybe(tables: &Tables, a: &Option<TypedExpr>) -> Weight
    ensures { result ≡ cut (spec.maybe_weight (seen tables.now) a.now) }
{
    match a {
        Some(a) => expr(tables, a),
        None => Weight::NOTHING,
    }
}

fn start(tables: &Tables, start: &TypedForStart) -> Weight
    ensures { result ≡ cut (spec.start_weight (seen tables.now) start.now) }
{
    match start {
        TypedForStart::Nothing => Weight::NOTHING,
        TypedForStart::Expr(a) => expr(tables, a),
        TypedForStart::Declare(ds) => all_declared(tables, ds.as_slice()),
    }
}

/// A statement.
#[tactic(auto, using(crate::proofs::WeightArms::done_arms))]
#[cycle(stepping)]
fn stmt(tables: &Tables, s: &TypedStmt) -> Weight
    ensures { result ≡ cut (spec.weight_done (seen tables.now) s.now) }
{
    match s {
        TypedStmt::Empty | TypedStmt::Break | TypedStmt::Continue => STATEMENT,
        TypedStmt::Block(statements) => STATEMENT.and(body(tables, statements.as_slice())),
        TypedStmt::Declare(ds) => STATEMENT.and(all_declared(tables, ds.as_slice())),
        TypedStmt::Expr(a) => STATEMENT.and(expr(tables, a)),
        TypedStmt::Return(a) => STATEMENT.and(maybe(tables, a)),
        TypedStmt::If(c, a, b) => {
            let first = STATEMENT.and(expr(tables, c)).and(stmt(tables, a.get()));
            match b {
                Some(b) => first.and(stmt(tables, b.get())),
                None => first.and(Weight::NOTHING),
            }
        }
        TypedStmt::While(c, a) => STATEMENT.and(expr(tables, c)).and(stmt(tables, a.get())),
        TypedStmt::DoWhile(a, c) => STATEMENT.and(stmt(tables, a.get())).and(expr(tables, c)),
        TypedStmt::For(first, c, step, a) => STATEMENT
            .and(start(tables, first))
            .and(maybe(tables, c))
            .and(maybe(tables, step))
            .and(stmt(tables, a.get())),
    }
}

/// The statements of a body.
#[cycle(stepping)]
pub(crate) fn body(tables: &Tables, statements: &[TypedStmt]) -> Weight
    ensures { result ≡ cut (spec.body_weight (seen tables.now) statements.now) }
{
    let mut sum = Weight::NOTHING;
    for s in statements {
        sum = sum.and(stmt(tables, s));
    }
    sum
}
