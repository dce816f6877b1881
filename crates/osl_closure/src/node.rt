ghost use Rattle.std.specs.Prelude.{◌≡◌, ◌≤◌, [], length, IfOk};
ghost use Rattle.osl_value.specs.Closures.{primitive, joined, weighted};
ghost use Rattle.osl_value.specs.Types.{longest_text};
ghost use Rattle.osl_closure.specs.Primitives.{leaf_of};
ghost use Rattle.osl_closure.specs.Parts.{parts};

use crate::arena::{ArenaText, Arguments, place_text};
use bumpalo::Bump;
use osl_value::{Fx, Memory, Primitive, Text};
use std::marker::Model;

/// What lies in the arena. The empty closure has no shape, so each shape has one part or more.
#[derive(Clone, Copy)]
pub(crate) enum Shape<'a> {
    Leaf(&'a Arguments, ArenaText<'a>),
    Add(&'a Shape<'a>, &'a Shape<'a>),
    Scale(&'a [Fx; 3], &'a Shape<'a>),
}

/// A closure in an arena. Contracts see it as the list of its parts.
#[derive(Drop)]
pub struct Node<'a> {
    pub(crate) shape: Option<&'a Shape<'a>>,
}

impl<'a> Model for Node<'a> {
    ghost use Rattle.std.specs.Prelude.{List};
    ghost use Rattle.osl_value.specs.declared.closure.Part.{Part};

    ghost Value = { List Part };

    ghost use Rattle.osl_closure.specs.Parts.{parts_of};

    ghost view = { λ n. parts_of n.shape };
}

impl<'a> Node<'a> {
    /// The same closure once more. Both nodes share what lies in the arena.
    pub fn share(&self) -> Node<'a>
        ensures { result ≡ self.now }
    {
        Node { shape: self.shape }
    }
}

fn place<'a>(arena: &'a Bump, shape: Shape<'a>) -> Result<Node<'a>, Memory>
    ensures { IfOk result (λ node. node ≡ parts shape.entry) }
{
    match arena.try_alloc(shape) {
        Ok(shape) => Ok(Node { shape: Some(shape) }),
        Err(_) => Err(Memory),
    }
}

fn place_leaf<'a>(
    arena: &'a Bump,
    prim: Primitive,
    normal: [Fx; 3],
    number: Fx,
    bytes: &[u8],
) -> Result<Node<'a>, Memory>
    requires { length bytes.now ≤ longest_text }
    ensures { IfOk result (λ node. node ≡ primitive prim normal number bytes.now) }
{
    let arguments = arena.try_alloc(Arguments {
        prim,
        normal,
        number,
    })?;
    let text = place_text(arena, bytes)?;
    place(arena, Shape::Leaf(arguments, text))
}

/// The closure of one primitive: one part of weight 1 on each channel. Of the arguments only those
/// that the primitive has are taken; the part's others are zero or empty.
pub fn leaf<'a>(
    arena: &'a Bump,
    prim: Primitive,
    normal: [Fx; 3],
    number: Fx,
    text: &Text,
) -> Result<Node<'a>, Memory>
    ensures { IfOk result (λ node. node ≡ leaf_of prim normal number text.now) }
{
    let zero = Fx::from_units(0);
    match prim {
        Primitive::Emission | Primitive::Background | Primitive::Holdout | Primitive::Transparent =>
            place_leaf(arena, prim, [zero; 3], zero, &[]),
        Primitive::Diffuse | Primitive::Translucent => {
            place_leaf(arena, prim, normal, zero, &[])
        }
        Primitive::OrenNayar | Primitive::Reflection | Primitive::Refraction => {
            place_leaf(arena, prim, normal, number, &[])
        }
        Primitive::Debug => place_leaf(arena, prim, [zero; 3], zero, text.bytes()),
    }
}

/// The closure without parts.
pub fn empty<'a>() -> Node<'a>
    ensures { result ≡ [] }
{
    Node { shape: None }
}

/// The sum: the parts of `a` and then those of `b`, of which the first 256 are kept.
pub fn add<'a>(arena: &'a Bump, a: Node<'a>, b: Node<'a>) -> Result<Node<'a>, Memory>
    ensures { IfOk result (λ node. node ≡ joined a.entry b.entry) }
{
    match (a.shape, b.shape) {
        (None, _) => Ok(b),
        (_, None) => Ok(a),
        (Some(left), Some(right)) => place(arena, Shape::Add(left, right)),
    }
}

/// The parts of `a`, each weight multiplied by `by`, which is on the left on each channel.
pub fn scale<'a>(arena: &'a Bump, by: [Fx; 3], a: Node<'a>) -> Result<Node<'a>, Memory>
    ensures { IfOk result (λ node. node ≡ weighted by a.entry) }
{
    let Some(inner) = a.shape else {
        return Ok(a);
    };
    let by = arena.try_alloc(by)?;
    place(arena, Shape::Scale(by, inner))
}
