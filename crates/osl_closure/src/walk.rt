ghost use Rattle.std.specs.Prelude.{◌≡◌, ◌∷◌, ◌++◌, ◌+◌, ◌≤◌, ◌<◌, [], IfOk, OnOk, map, length, sum_by, take, drop};
ghost use Rattle.osl_value.specs.Closures.{full_weight, most_parts, shown};
ghost use Rattle.osl_closure.specs.Parts.{part_with, parts};
ghost use Rattle.osl_closure.specs.Walk.{seen, seen_all, found_weighted, finish_up, work_of};

use crate::arena::{ArenaText, Arguments};
use crate::node::{Node, Shape};
use crate::weight::{color_times, is_black};
use osl_value::{Fx, Memory, Part, PartList, Text};
use std::alloc::Global;

/// How many parts a closure keeps.
const MOST_PARTS: usize = 256;

/// The units of 1.
const ONE: i64 = 1_000_000_000;

/// A part whose primitive and text still lie in the arena.
#[derive(Clone, Copy)]
pub(crate) struct Found<'a> {
    weight: [Fx; 3],
    arguments: &'a Arguments,
    text: ArenaText<'a>,
}

/// What is left to do.
#[derive(Clone, Copy)]
pub(crate) enum Task<'a> {
    Visit(&'a Shape<'a>),
    /// Multiply the weights of the parts from this place on.
    Multiply(usize, &'a [Fx; 3]),
}

fn scale_all(found: &mut [Found<'_>], by: [Fx; 3])
    ensures { found.new ≡ map (found_weighted by) found.old }
{
    for part in found.iter_mut() {
        part.weight = color_times(by, part.weight);
    }
}

/// Multiplies the weights of the parts from a place on.
fn scale_from(found: &mut [Found<'_>], from: usize, by: [Fx; 3])
    requires { from ≤ length found.old }
    ensures { found.new ≡ take from found.old ++ map (found_weighted by) (drop from found.old) }
{
    scale_all(&mut found[from..], by);
}

/// Adds the part of a primitive, of weight 1 on each channel.
fn find<'a>(
    arguments: &'a Arguments,
    text: ArenaText<'a>,
    found: &mut Vec<Found<'a>>,
) -> Result<(), Memory>
    ensures added { OnOk result (seen_all found.new.items
        ≡ seen_all found.old.items ++ part_with full_weight arguments.now text.entry ∷ []) }
    ensures one_more { OnOk result (length found.new.items ≡ length found.old.items + 1) }
{
    let weight = [Fx::from_units(ONE); 3];
    match found.push(Found {
        weight,
        arguments,
        text,
    }) {
        Ok(()) => Ok(()),
        Err(_) => Err(Memory),
    }
}

/// Does one task, which may leave others in its place. A shape is passed over once 256 parts are found.
fn step<'a>(
    task: Task<'a>,
    tasks: &mut Vec<Task<'a>>,
    found: &mut Vec<Found<'a>>,
) -> Result<(), Memory>
    requires { length found.old.items ≤ most_parts }
    ensures same { OnOk result (finish_up tasks.new.items (seen_all found.new.items)
        ≡ finish_up (tasks.old.items ++ task.entry ∷ []) (seen_all found.old.items)) }
    ensures short { OnOk result (length found.new.items ≤ most_parts) }
    ensures less { OnOk result (sum_by work_of tasks.new.items < sum_by work_of tasks.old.items + work_of task.entry) }
{
    match task {
        Task::Visit(shape) => {
            if found.len() == MOST_PARTS {
                return Ok(());
            }
            match *shape {
                Shape::Leaf(arguments, text) => find(arguments, text, found)?,
                Shape::Add(left, right) => {
                    tasks.push(Task::Visit(right))?;
                    tasks.push(Task::Visit(left))?;
                }
                Shape::Scale(by, inner) => {
                    tasks.push(Task::Multiply(found.len(), by))?;
                    tasks.push(Task::Visit(inner))?;
                }
            }
        }
        Task::Multiply(from, by) => {
            if from < found.len() {
                scale_from(found.as_mut_slice(), from, *by);
            }
        }
    }
    Ok(())
}

/// The parts of a shape from left to right, found without recursion.
fn gather<'a>(alloc: Global, shape: &'a Shape<'a>) -> Result<Vec<Found<'a>>, Memory>
    ensures { IfOk result (λ found. seen_all found.items ≡ parts shape.now) }
{
    let mut tasks = Vec::new(alloc);
    let mut found = Vec::new(alloc);
    tasks.push(Task::Visit(shape))?;
    while let Some(task) = tasks.pop() {
        step(task, &mut tasks, &mut found)?;
    }
    Ok(found)
}

/// The part with a text of its own.
fn owned(alloc: Global, found: &Found<'_>) -> Result<Part, Memory>
    ensures { IfOk result (λ part. part ≡ seen found.now) }
{
    let text = found.text;
    let bytes = Vec::from_slice(alloc, text.bytes)?;
    Ok(Part {
        weight: found.weight,
        prim: found.arguments.prim,
        normal: found.arguments.normal,
        number: found.arguments.number,
        text: Text::new(bytes).unwrap(),
    })
}

/// The parts whose weight is not zero on all channels.
fn keep(alloc: Global, found: &[Found<'_>]) -> Result<PartList, Memory>
    ensures { IfOk result (λ list. list ≡ shown (seen_all found.now)) }
{
    let mut parts = Vec::new(alloc);
    for part in found {
        if !is_black(part.weight) {
            parts.push(owned(alloc, part)?)?;
        }
    }
    Ok(PartList::new(parts))
}

/// The parts of a closure, in order, without those whose weight is zero on all channels.
pub fn flatten(alloc: Global, a: Node<'_>) -> Result<PartList, Memory>
    ensures { IfOk result (λ list. list ≡ shown a.entry) }
{
    match a.shape {
        None => Ok(PartList::new(Vec::new(alloc))),
        Some(shape) => {
            let found = gather(alloc, shape)?;
            keep(alloc, found.as_slice())
        }
    }
}
