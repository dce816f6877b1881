//! Expressions where a kind is wanted.

ghost use Rattle.std.specs.Prelude.{◌≡◌};
ghost use Rattle.osl_typed.specs.Typing as spec;
ghost use Rattle.osl_typing.specs.Says.{Says};

use crate::error::TypeError;
use crate::forms::{as_argument, boxed_tree, plain_type, tree_of};
use osl_overload::Kind;
use osl_overload::cost::cost;
use osl_typed::{Found, TypedExpr};
use std::alloc::Global;

/// An expression where a kind is wanted, by `=`: the expression as it is where it has the kind, and promoted where it
/// may be.
#[tactic(auto, unfolding(osl_typed::specs::Typing::fit))]
pub fn fit(alloc: Global, kind: Kind, a: Found) -> Result<TypedExpr, TypeError>
    ensures { Says (spec.fit kind a) result }
{
    match cost(as_argument(&a), kind) {
        None => Err(TypeError::NoTyping),
        Some(steps) => {
            if steps == 0 {
                return Ok(tree_of(a));
            }
            let ty = plain_type(kind)?;
            Ok(TypedExpr::Promote(ty, boxed_tree(alloc, a)?))
        }
    }
}
