//! What it costs to pass arguments.

ghost use Rattle.std.specs.Prelude.{◌≡◌, ◌*◌, ◌≤◌, IfSome, length};
ghost use Rattle.osl_overload.specs.Kinds.{same_kind};
ghost use Rattle.osl_overload.specs.Cost.{is_spatial, promotion, promotion_of, cost, argument_cost, total};

use crate::signature::{Arg, Formal, Kind};
use osl_value::{Base, Ty};

/// What the arguments of a call cost together, if there are as many as parameters and each fits.
pub fn total(formals: &[Formal], args: &[Arg]) -> Option<u64>
    ensures { result ≡ total formals.now args.now }
{
    if formals.len() != args.len() {
        return None;
    }
    let mut sum = 0;
    for (i, formal) in formals.iter().enumerate() {
        sum += argument_cost(*formal, args[i])?;
    }
    Some(sum)
}

/// What an argument costs, if it fits. One for an output has to be of the same kind, and writable.
fn argument_cost(formal: Formal, arg: Arg) -> Option<u64>
    ensures value { result ≡ argument_cost formal arg }
    ensures small { IfSome result (λ cost. cost ≤ 3) }
{
    if !formal.output {
        return cost(arg, formal.kind);
    }
    if arg.writable && same_kind(arg.kind, formal.kind) {
        Some(0)
    } else {
        None
    }
}

/// What it costs to pass an argument where this kind is wanted: 0 for the same kind, 1 to 3 for a promotion, and `None` where
/// it does not fit.
pub fn cost(arg: Arg, wanted: Kind) -> Option<u64>
    ensures value { result ≡ cost arg wanted }
    ensures small { IfSome result (λ cost. cost ≤ 3) }
{
    let closure = Kind::Value(Ty {
        base: Base::Closure,
        len: 0,
    });
    if same_kind(arg.kind, wanted) {
        Some(0)
    } else if arg.zero_literal && same_kind(wanted, closure) {
        Some(3)
    } else {
        promotion_of(arg.kind, wanted)
    }
}

fn same_kind(one: Kind, other: Kind) -> bool
    ensures { result ≡ same_kind one other }
{
    one == other
}

fn promotion_of(from: Kind, to: Kind) -> Option<u64>
    ensures value { result ≡ promotion_of from to }
    ensures small { IfSome result (λ cost. cost ≤ 3) }
{
    match (from, to) {
        (Kind::Value(from), Kind::Value(to)) => {
            if from.len == 0 && to.len == 0 {
                promotion(from.base, to.base)
            } else {
                None
            }
        }
        _ => None,
    }
}

fn promotion(from: Base, to: Base) -> Option<u64>
    ensures value { result ≡ promotion from to }
    ensures small { IfSome result (λ cost. cost ≤ 3) }
{
    match from {
        Base::Int => match to {
            Base::Float => Some(1),
            _ => to.is_triple().then_some(3),
        },
        Base::Float => to.is_triple().then_some(2),
        _ => (is_spatial(from) && is_spatial(to)).then_some(1),
    }
}

fn is_spatial(base: Base) -> bool
    ensures { result ≡ is_spatial base }
{
    matches!(base, Base::Point | Base::Vector | Base::Normal)
}
