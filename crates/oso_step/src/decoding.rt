//! What an op does.

ghost use Rattle.std.specs.Prelude.{◌≡◌, ◌<◌, ◌^◌, ◌+◌, ◌∷◌, List};
ghost use Rattle.oso_code.specs.Ops.{operands};
ghost use Rattle.oso_code.specs.Steps.{step_of, branch_step, while_step, for_step, do_step, call_step, compute};
ghost use Rattle.oso_code.specs.declared.symbol.Symbol.{Symbol};
ghost use Rattle.oso_step.specs.Decoded.{seen_step};

use crate::step::{LoopOp, Span, Step, Way};
use osl_value::OpName;
use oso_code::Op;

/// What the op at a place does.
#[tactic(auto, unfolding(oso_code::specs::Steps::step_of))]
pub fn decode(op: &Op, at: u32) -> Step<'_>
    requires { at + 1 < 2 ^ 32 }
    ensures { (symbols : List Symbol) → seen_step symbols result ≡ step_of symbols at op.now }
{
    let args = op.args.as_slice();
    let jumps = op.jumps.as_slice();
    match op.name {
        OpName::If => branch_at(at, args, jumps),
        OpName::While => while_at(at, args, jumps),
        OpName::For => for_at(at, args, jumps),
        OpName::DoWhile => do_at(at, args, jumps),
        OpName::FunctionCall => call_at(at, args, jumps),
        OpName::Break => Step::Leave(Way::Break),
        OpName::Continue => Step::Leave(Way::Continue),
        OpName::Return => Step::Leave(Way::Return),
        OpName::Exit => Step::Leave(Way::Exit),
        name => compute_by(name, args),
    }
}

fn span(start: u32, end: u32) -> Span
    ensures { result ≡ record { start = start; end = end } }
{
    Span { start, end }
}

fn compute_by(name: OpName, args: &[u32]) -> Step<'_>
    ensures { (symbols : List Symbol) → seen_step symbols result ≡ compute symbols name args.now }
{
    match args {
        [] => Step::Leave(Way::Exit),
        [target, others @ ..] => {
            let sources = if name.updates() { args } else { others };
            Step::Compute(name, *target, sources)
        }
    }
}

fn branch_at<'s>(at: u32, args: &[u32], jumps: &[u32]) -> Step<'s>
    requires { at + 1 < 2 ^ 32 }
    ensures { (symbols : List Symbol) → seen_step symbols result ≡ branch_step at args.now jumps.now }
{
    match (args, jumps) {
        ([c], [a, e]) => Step::Branch(*c, span(at + 1, *a), span(*a, *e)),
        _ => Step::Leave(Way::Exit),
    }
}

fn while_at<'s>(at: u32, args: &[u32], jumps: &[u32]) -> Step<'s>
    requires { at + 1 < 2 ^ 32 }
    ensures { (symbols : List Symbol) → seen_step symbols result ≡ while_step at args.now jumps.now }
{
    match (args, jumps) {
        ([c], [a, e]) => {
            let repeat = LoopOp {
                condition: *c,
                test: span(at + 1, *a),
                body: span(*a, *e),
                step: span(*e, *e),
            };
            Step::Loop(true, repeat)
        }
        _ => Step::Leave(Way::Exit),
    }
}

fn for_at<'s>(at: u32, args: &[u32], jumps: &[u32]) -> Step<'s>
    requires { at + 1 < 2 ^ 32 }
    ensures { (symbols : List Symbol) → seen_step symbols result ≡ for_step at args.now jumps.now }
{
    match (args, jumps) {
        ([c], [a, s, e]) => {
            let repeat = LoopOp {
                condition: *c,
                test: span(at + 1, *a),
                body: span(*a, *s),
                step: span(*s, *e),
            };
            Step::Loop(true, repeat)
        }
        _ => Step::Leave(Way::Exit),
    }
}

fn do_at<'s>(at: u32, args: &[u32], jumps: &[u32]) -> Step<'s>
    requires { at + 1 < 2 ^ 32 }
    ensures { (symbols : List Symbol) → seen_step symbols result ≡ do_step at args.now jumps.now }
{
    match (args, jumps) {
        ([c], [a, e]) => {
            let repeat = LoopOp {
                condition: *c,
                test: span(*a, *e),
                body: span(at + 1, *a),
                step: span(*e, *e),
            };
            Step::Loop(false, repeat)
        }
        _ => Step::Leave(Way::Exit),
    }
}

fn call_at<'s>(at: u32, args: &[u32], jumps: &[u32]) -> Step<'s>
    requires { at + 1 < 2 ^ 32 }
    ensures { (symbols : List Symbol) → seen_step symbols result ≡ call_step at args.now jumps.now }
{
    match (args, jumps) {
        ([], [e]) => Step::Call(span(at + 1, *e)),
        _ => Step::Leave(Way::Exit),
    }
}
