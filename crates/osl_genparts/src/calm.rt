//! Which expressions write nothing that was there before them.

ghost use Rattle.std.specs.Prelude.{◌≡◌, map};
ghost use Rattle.osl_genparts.specs.Calm as spec;

use osl_typed::{Argument, TypedExpr};

/// Whether the expression writes nothing that was there before it.
#[tactic(auto, using(crate::proofs::CalmLaws::arms))]
#[cycle(calm)]
pub fn is_calm(e: &TypedExpr) -> bool
    ensures { result ≡ spec.is_calm e.now }
{
    match e {
        TypedExpr::Int(_) | TypedExpr::Float(_) | TypedExpr::Text(_) | TypedExpr::Exit => true,
        TypedExpr::Variable(_, _, indices) => are_calm(indices.as_slice()),
        TypedExpr::PartOf(_, a, _, indices) => is_calm(a.get()) && are_calm(indices.as_slice()),
        TypedExpr::Paren(_, a) => is_calm(a.get()),
        TypedExpr::Promote(_, a) => is_calm(a.get()),
        TypedExpr::Apply(_, _, operands) => are_calm(operands.as_slice()),
        TypedExpr::And(a, b) | TypedExpr::Or(a, b) => is_calm(a.get()) && is_calm(b.get()),
        TypedExpr::Choose(_, c, a, b) => is_calm(c.get()) && is_calm(a.get()) && is_calm(b.get()),
        TypedExpr::Assign(_, _, _, _)
        | TypedExpr::Update(_, _, _, _, _, _)
        | TypedExpr::Step(_, _, _) => false,
        TypedExpr::Call(_, _, args) => pass_calm(args.as_slice()),
    }
}

/// Whether all of them write nothing.
#[cycle(calm)]
pub fn are_calm(items: &[TypedExpr]) -> bool
    ensures { result ≡ spec.all_of (map spec.is_calm items.now) }
{
    let mut calm = true;
    for item in items {
        calm = calm && is_calm(item);
    }
    calm
}

/// Whether the argument writes nothing: it is no output.
#[tactic(auto, using(crate::proofs::CalmLaws::arms))]
#[cycle(calm)]
fn passes_calm(a: &Argument) -> bool
    ensures { result ≡ spec.passes_calm a.now }
{
    match a {
        Argument::In(a) => is_calm(a),
        Argument::Out(_, _, _) => false,
    }
}

/// Whether all arguments write nothing.
#[cycle(calm)]
fn pass_calm(args: &[Argument]) -> bool
    ensures { result ≡ spec.all_of (map spec.passes_calm args.now) }
{
    let mut calm = true;
    for arg in args {
        calm = calm && passes_calm(arg);
    }
    calm
}
