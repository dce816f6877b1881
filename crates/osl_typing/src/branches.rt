//! The choice between two expressions. OSL specification, section "Operators".

ghost use Rattle.std.specs.Prelude.{◌≡◌};
ghost use Rattle.osl_typed.specs.Typing as spec;
ghost use Rattle.osl_typing.specs.Says.{Says};

use crate::error::TypeError;
use crate::fitting::fit;
use crate::forms::{boxed_tree, expression, value, when};
use crate::kinds::{CLOSURE, is_numeric, joined, same_kind};
use osl_overload::Kind;
use osl_typed::{Found, TypedExpr};
use sqlite_items::Boxed;
use std::alloc::Global;

/// The kind of a choice: as of two operands, but that the literal `0` may be the empty closure.
fn common(a: &Found, b: &Found) -> Option<Kind>
    ensures { result ≡ spec.common a.now b.now }
{
    if a.zero_literal && same_kind(b.kind, CLOSURE) {
        Some(CLOSURE)
    } else if b.zero_literal && same_kind(a.kind, CLOSURE) {
        Some(CLOSURE)
    } else {
        joined(a.kind, b.kind)
    }
}

/// `c ? a : b`, where `c` is a number.
#[tactic(auto, unfolding(osl_typed::specs::Typing::choice))]
pub fn choice(alloc: Global, c: Found, a: Found, b: Found) -> Result<Found, TypeError>
    ensures { Says (spec.choice c a b) result }
{
    let test = expression(c)?;
    let first = expression(a)?;
    let second = expression(b)?;
    when(is_numeric(test.kind))?;
    let Some(kind) = common(&first, &second) else {
        return Err(TypeError::NoTyping);
    };
    let left = fit(alloc, kind, first)?;
    let right = fit(alloc, kind, second)?;
    chosen(alloc, kind, test, left, right)
}

fn chosen(
    alloc: Global,
    kind: Kind,
    test: Found,
    left: TypedExpr,
    right: TypedExpr,
) -> Result<Found, TypeError>
    ensures { Says (Some (spec.value (TypedExpr.Choose kind (spec.tree_of test) left right) kind)) result }
{
    let test = boxed_tree(alloc, test)?;
    let left = Boxed::new(alloc, left)?;
    let right = Boxed::new(alloc, right)?;
    value(alloc, TypedExpr::Choose(kind, test, left, right), kind)
}
