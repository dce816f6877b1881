// Closures: primitives, sums and products.

ghost use Rattle.std.specs.Prelude.{◌≡◌, pos, IfOk, [], ◌∷◌};
ghost use Rattle.osl_value.specs.AnyValue.{Parts};
ghost use Rattle.osl_value.specs.Closures.{primitive, joined, weighted};
ghost use Rattle.osl_closure.specs.Primitives.{leaf_of};
ghost use Rattle.osl_apply.specs.Slots.{seen};
ghost use Rattle.osl_apply.specs.Operands.{floats_in};

use crate::read::Floats;
use crate::slot::Slot;
use bumpalo::Bump;
use osl_closure::{Node, add, leaf, scale};
use osl_value::{Fx, Memory, Primitive, Text};
use std::alloc::Global;

/// A primitive with a normal and a number, as far as it has them.
pub fn measured<'a>(
    alloc: Global,
    arena: &'a Bump,
    prim: Primitive,
    normal: [Fx; 3],
    number: Fx,
) -> Result<Slot<'a>, Memory>
    ensures { IfOk result (λ slot. seen slot ≡ Parts (leaf_of prim normal number [])) }
{
    let text = Text::empty(alloc);
    let node = leaf(arena, prim, normal, number, &text)?;
    Ok(Slot::Closure(node))
}

/// A primitive without arguments.
pub fn bare<'a>(alloc: Global, arena: &'a Bump, prim: Primitive) -> Result<Slot<'a>, Memory>
    ensures { IfOk result (λ slot. seen slot ≡ Parts (leaf_of prim (pos 0 ∷ pos 0 ∷ pos 0 ∷ []) (pos 0) [])) }
{
    measured(alloc, arena, prim, [Fx::ZERO; 3], Fx::ZERO)
}

/// A primitive with a normal.
pub fn facing<'a>(
    alloc: Global,
    arena: &'a Bump,
    prim: Primitive,
    normal: [Fx; 3],
) -> Result<Slot<'a>, Memory>
    ensures { IfOk result (λ slot. seen slot ≡ Parts (leaf_of prim normal (pos 0) [])) }
{
    measured(alloc, arena, prim, normal, Fx::ZERO)
}

/// The primitive that carries a string.
pub fn labelled<'a>(arena: &'a Bump, text: &Text) -> Result<Slot<'a>, Memory>
    ensures { IfOk result (λ slot. seen slot ≡ Parts (leaf_of Primitive.Debug (pos 0 ∷ pos 0 ∷ pos 0 ∷ []) (pos 0) text.now)) }
{
    let node = leaf(arena, Primitive::Debug, [Fx::ZERO; 3], Fx::ZERO, text)?;
    Ok(Slot::Closure(node))
}

/// The sum.
pub fn sum<'a>(arena: &'a Bump, a: Node<'a>, b: Node<'a>) -> Result<Slot<'a>, Memory>
    ensures { IfOk result (λ slot. seen slot ≡ Parts (joined a.entry b.entry)) }
{
    let node = add(arena, a, b)?;
    Ok(Slot::Closure(node))
}

/// The product with a factor, a single number being repeated.
pub fn product<'a>(arena: &'a Bump, factor: Floats, a: Node<'a>) -> Result<Slot<'a>, Memory>
    ensures { IfOk result (λ slot. seen slot ≡ Parts (weighted (floats_in factor) a.entry)) }
{
    let node = scale(arena, factor.spread(), a)?;
    Ok(Slot::Closure(node))
}
