//! Where ranges end, and where `break` and `continue` are: one walk over the ops, with the ranges that are open.

ghost use Rattle.std.specs.Prelude.{◌≡◌, ◌≤◌, ◌<◌, ◌+◌, ◌-◌, ◌^◌, ◌++◌, reverse, length, List, OnOk, IfOk};
ghost use Rattle.oso_code.specs.Ranges.{ascends, reach, ends_in_section};
ghost use Rattle.oso_code.specs.Walk.{close, inside_of, entered, open_two, open_three, open_one, open_ranges, may_leave, fits_inside, opens, section_end, or_deep};
ghost use Rattle.oso_code.specs.Walked.{AreRangeFaults};
ghost use Rattle.oso_code.specs.declared.symbol.Symbol.{Symbol};

use crate::checks::opened::{Inside, Open, RangeFaults};
use crate::checks::role::Role;
use crate::checks::sections::{section_from, section_in};
use crate::op::{Op, Section};
use osl_value::{Memory, OpName};
use std::alloc::Global;

/// The most ranges, one in another.
pub const MOST_NESTED: u32 = 4608;

/// Takes off the ranges that end at a place or before it.
fn close(stack: &mut Vec<Open>, at: u32)
    ensures { reverse stack.new.items ≡ close at (reverse stack.old.items) }
{
    while let Some(range) = stack.last() {
        if at < range.end {
            return;
        }
        let _ = stack.pop();
    }
}

/// What a place is in, where the section ends at `end`.
fn inside_of(end: u32, stack: &[Open]) -> Inside
    ensures { result ≡ inside_of end (reverse stack.now) }
{
    match stack {
        [.., range] => Inside {
            end: range.end,
            depth: range.depth,
            in_loop: range.in_loop,
        },
        [] => Inside {
            end,
            depth: 0,
            in_loop: false,
        },
    }
}

/// Whether each jump is at least the place before it.
fn ascends(from: u32, jumps: &[u32]) -> bool
    ensures { result ≡ ascends from jumps.now }
{
    let mut place = from;
    for jump in jumps {
        if *jump < place {
            return false;
        }
        place = *jump;
    }
    true
}

/// Where the range around an op goes on after it.
fn reach(from: u32, jumps: &[u32]) -> u32
    ensures { result ≡ reach from jumps.now }
{
    match jumps {
        [.., last] => *last,
        [] => from,
    }
}

fn ends_in_section(end: u32, section: Option<Section>) -> bool
    ensures { result ≡ ends_in_section end section }
{
    match section {
        Some(section) => end <= section.end,
        None => false,
    }
}

/// `break` and `continue` are in a loop's body.
fn may_leave(name: OpName, within: bool) -> bool
    ensures { result ≡ may_leave name within }
{
    match name {
        OpName::Break | OpName::Continue => within,
        _ => true,
    }
}

/// Whether the jumps of an op, or the `break` or `continue`, fit what it is in.
fn fits_inside(op: &Op, at: u32, section: Option<Section>, inside: Inside) -> bool
    requires { at + 1 < 2 ^ 32 }
    ensures { result ≡ fits_inside op.now at section inside }
{
    let jumps = op.jumps.as_slice();
    let end = reach(at + 1, jumps);
    ascends(at + 1, jumps)
        && ends_in_section(end, section)
        && end <= inside.end
        && may_leave(op.name, inside.in_loop)
}

/// A range of an op.
fn entered(inside: Inside, role: Role, start: u32, end: u32) -> Open
    requires { inside.depth < 2 ^ 32 - 1 }
    ensures { result ≡ entered inside role start end }
{
    let in_loop = match role {
        Role::LoopBody => true,
        Role::CallBody => false,
        Role::Part => inside.in_loop,
    };
    Open {
        start,
        end,
        role,
        depth: inside.depth + 1,
        in_loop,
    }
}

/// Opens two ranges, the second after the first.
fn open_two(
    stack: &mut Vec<Open>,
    inside: Inside,
    at: u32,
    op: &Op,
    first: Role,
    second: Role,
) -> Result<(), Memory>
    requires next { at + 1 < 2 ^ 32 }
    requires depth { inside.depth < 2 ^ 32 - 1 }
    ensures { OnOk result (reverse stack.new.items ≡ open_two inside at first second op.now.args op.now.jumps ++ reverse stack.old.items) }
{
    let ([_condition], [middle, end]) = (op.args.as_slice(), op.jumps.as_slice()) else {
        return Ok(());
    };
    stack.push(entered(inside, second, *middle, *end))?;
    stack.push(entered(inside, first, at + 1, *middle))?;
    Ok(())
}

/// Opens the condition, the body and the step of a `for`.
fn open_three(stack: &mut Vec<Open>, inside: Inside, at: u32, op: &Op) -> Result<(), Memory>
    requires next { at + 1 < 2 ^ 32 }
    requires depth { inside.depth < 2 ^ 32 - 1 }
    ensures { OnOk result (reverse stack.new.items ≡ open_three inside at op.now.args op.now.jumps ++ reverse stack.old.items) }
{
    let ([_condition], [body, step, end]) = (op.args.as_slice(), op.jumps.as_slice()) else {
        return Ok(());
    };
    stack.push(entered(inside, Role::Part, *step, *end))?;
    stack.push(entered(inside, Role::LoopBody, *body, *step))?;
    stack.push(entered(inside, Role::Part, at + 1, *body))?;
    Ok(())
}

/// Opens the body of a call.
fn open_one(stack: &mut Vec<Open>, inside: Inside, at: u32, op: &Op) -> Result<(), Memory>
    requires next { at + 1 < 2 ^ 32 }
    requires depth { inside.depth < 2 ^ 32 - 1 }
    ensures { OnOk result (reverse stack.new.items ≡ open_one inside at op.now.args op.now.jumps ++ reverse stack.old.items) }
{
    let ([], [end]) = (op.args.as_slice(), op.jumps.as_slice()) else {
        return Ok(());
    };
    stack.push(entered(inside, Role::CallBody, at + 1, *end))?;
    Ok(())
}

/// Opens the ranges of an op, the first one on top.
fn open_ranges(stack: &mut Vec<Open>, inside: Inside, at: u32, op: &Op) -> Result<(), Memory>
    requires next { at + 1 < 2 ^ 32 }
    requires depth { inside.depth < 2 ^ 32 - 1 }
    ensures { OnOk result (reverse stack.new.items ≡ open_ranges inside at op.now.name op.now.args op.now.jumps ++ reverse stack.old.items) }
{
    match op.name {
        OpName::If => open_two(stack, inside, at, op, Role::Part, Role::Part)?,
        OpName::While => open_two(stack, inside, at, op, Role::Part, Role::LoopBody)?,
        OpName::For => open_three(stack, inside, at, op)?,
        OpName::DoWhile => open_two(stack, inside, at, op, Role::LoopBody, Role::Part)?,
        OpName::FunctionCall => open_one(stack, inside, at, op)?,
        _ => {}
    }
    Ok(())
}

/// Whether an op has ranges.
fn opens(op: &Op) -> bool
    ensures { result ≡ opens op.now.name op.now.args op.now.jumps }
{
    match op.name {
        OpName::If | OpName::While | OpName::DoWhile => {
            matches!((op.args.as_slice(), op.jumps.as_slice()), ([_], [_, _]))
        }
        OpName::For => matches!((op.args.as_slice(), op.jumps.as_slice()), ([_], [_, _, _])),
        OpName::FunctionCall => matches!((op.args.as_slice(), op.jumps.as_slice()), ([], [_])),
        _ => false,
    }
}

/// Where a section ends, and 0 where there is none.
fn section_end(section: Option<Section>) -> u32
    ensures { result ≡ section_end section }
{
    match section {
        Some(section) => section.end,
        None => 0,
    }
}

/// The first op whose ranges nest too deep, from the ops before one and that one.
fn or_deep(deep: Option<u32>, op: &Op, inside: Inside, at: u32) -> Option<u32>
    ensures { result ≡ or_deep deep op.now inside at }
{
    if deep.is_none() && opens(op) && inside.depth >= MOST_NESTED {
        Some(at)
    } else {
        deep
    }
}

/// The first op at which jumps do not fit, and the first before it at which ranges nest too deep: one walk over the
/// ops, in which each range is opened and closed once.
pub fn range_faults(alloc: Global, sections: &[Section], ops: &[Op]) -> Result<RangeFaults, Memory>
    requires { length ops.now < 2 ^ 32 }
    ensures { IfOk result (λ faults. (symbols : List Symbol) → AreRangeFaults symbols sections.now ops.now faults) }
{
    let mut stack = Vec::new(alloc);
    let mut section = 0;
    let mut deep = None;
    for (at, op) in ops.iter().enumerate() {
        section = section_from(sections, section, at);
        let here = section_in(sections, section);
        let at = at as u32;
        close(&mut stack, at);
        let inside = inside_of(section_end(here), stack.as_slice());
        if !fits_inside(op, at, here, inside) {
            return Ok(RangeFaults {
                jump: Some(at),
                deep,
            });
        }
        deep = or_deep(deep, op, inside, at);
        open_ranges(&mut stack, inside, at, op)?;
    }
    Ok(RangeFaults { jump: None, deep })
}
