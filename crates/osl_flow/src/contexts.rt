//! What is around the ranges of an op, and where ways through code go on.

ghost use Rattle.std.specs.Prelude.{◌≡◌, ◌<◌, ◌+◌, ◌^◌, List};
ghost use Rattle.oso_code.specs.declared.symbol.Symbol.{Symbol};
ghost use Rattle.oso_step.specs.Decoded.{seen_span, seen_way, seen_step};
ghost use Rattle.osl_rewrites.specs.Flow.{left_to, first, entry, part, within_branch, within_test, within_step, within_body, within_call, within_section, nexts_of, test_nexts, gate_nexts};
ghost use Rattle.osl_flow.specs.Ways.{spots_of};

use osl_rewrites::{Around, Spot};
use oso_code::Section;
use oso_step::{LoopOp, Span, Step, Way};

/// Where a way may go on: at no spot, at one, or at either of two.
#[derive(Clone, Copy, Debug)]
pub enum Nexts {
    None,
    One(Spot),
    Two(Spot, Spot),
}

/// From a place of a range on.
pub fn first(i: u32, a: Around) -> Spot
    ensures { result ≡ first i a }
{
    if i < a.end { Spot::At(i) } else { a.next }
}

fn entry(s: Span, a: Around) -> Spot
    ensures { result ≡ entry (seen_span s) a }
{
    first(s.start, a)
}

fn part(s: Span, next: Spot, a: Around) -> Around
    ensures { result ≡ part (seen_span s) next a }
{
    Around {
        end: s.end,
        next,
        breaks: a.breaks,
        continues: a.continues,
        returns: a.returns,
    }
}

/// Around a range of an `if`.
pub fn within_branch(s: Span, fails: Span, a: Around) -> Around
    ensures { result ≡ within_branch (seen_span s) (seen_span fails) a }
{
    part(s, first(fails.end, a), a)
}

/// Around the range of a loop's condition.
pub fn within_test(i: u32, test: Span, a: Around) -> Around
    ensures { result ≡ within_test i (seen_span test) a }
{
    part(test, Spot::Test(i), a)
}

/// Around a loop's step.
pub fn within_step(i: u32, l: LoopOp, a: Around) -> Around
    ensures { result ≡ within_step i (seen_span l.test) (seen_span l.step) a }
{
    part(l.step, entry(l.test, within_test(i, l.test, a)), a)
}

/// Around a loop's body.
pub fn within_body(i: u32, l: LoopOp, a: Around) -> Around
    ensures { result ≡ within_body i (seen_span l.test) (seen_span l.body) (seen_span l.step) a }
{
    let on = entry(l.step, within_step(i, l, a));
    Around {
        end: l.body.end,
        next: on,
        breaks: first(l.step.end, a),
        continues: on,
        returns: a.returns,
    }
}

/// Around a called range.
pub fn within_call(body: Span, a: Around) -> Around
    ensures { result ≡ within_call (seen_span body) a }
{
    let on = first(body.end, a);
    Around {
        end: body.end,
        next: on,
        breaks: on,
        continues: on,
        returns: on,
    }
}

/// Around the ops of a section.
pub fn within_section(j: u32, section: Section) -> Around
    requires { j + 1 < 2 ^ 32 }
    ensures { result ≡ within_section j section }
{
    Around {
        end: section.end,
        next: Spot::Gate(j + 1),
        breaks: Spot::Done,
        continues: Spot::Done,
        returns: Spot::Done,
    }
}

fn left_to(a: Around, way: Way) -> Spot
    ensures { result ≡ left_to a (seen_way way) }
{
    match way {
        Way::Break => a.breaks,
        Way::Continue => a.continues,
        Way::Return => a.returns,
        Way::Exit => Spot::Done,
    }
}

/// Where ways go on from an op.
pub fn op_nexts(i: u32, a: Around, step: &Step<'_>) -> Nexts
    requires { i + 1 < 2 ^ 32 }
    ensures { (symbols : List Symbol) → spots_of result ≡ nexts_of i a (seen_step symbols step.now) }
{
    match *step {
        Step::Compute(_, _, _) => Nexts::One(first(i + 1, a)),
        Step::Branch(_, holds, fails) => Nexts::Two(
            entry(holds, within_branch(holds, fails, a)),
            entry(fails, within_branch(fails, fails, a)),
        ),
        Step::Loop(true, l) => Nexts::One(entry(l.test, within_test(i, l.test, a))),
        Step::Loop(false, l) => Nexts::One(entry(l.body, within_body(i, l, a))),
        Step::Call(body) => Nexts::One(entry(body, within_call(body, a))),
        Step::Leave(way) => Nexts::One(left_to(a, way)),
    }
}

/// Where they go on from the reading of a loop's condition.
pub fn loop_nexts(i: u32, a: Around, step: &Step<'_>) -> Nexts
    ensures { (symbols : List Symbol) → spots_of result ≡ test_nexts i a (seen_step symbols step.now) }
{
    match *step {
        Step::Loop(_, l) => Nexts::Two(entry(l.body, within_body(i, l, a)), first(l.step.end, a)),
        _ => Nexts::None,
    }
}

/// Where they go on from before a section.
pub fn section_nexts(j: u32, section: Section) -> Nexts
    requires { j + 1 < 2 ^ 32 }
    ensures { spots_of result ≡ gate_nexts j section }
{
    let into = first(section.start, within_section(j, section));
    match section.param {
        None => Nexts::One(into),
        Some(_) => Nexts::Two(into, Spot::Gate(j + 1)),
    }
}
