//! One op of the machine.

ghost use Rattle.std.specs.Prelude.{true, false, if◌then◌else◌, ◌≡◌, ◌<◌, ◌^◌, ◌++◌, ◌∷◌, [], IsTrue, IfOk, OnOk, Some, length, slice_get};
ghost use Rattle.osl_value.specs.AnyValue.{type_of};
ghost use Rattle.osl_value.specs.Forms.{AnInt, fits};
ghost use Rattle.osl_apply.specs.Slots.{seen};
ghost use Rattle.oso_code.specs.Ranges.{steps_of};
ghost use Rattle.oso_code.specs.Run.{is_so};
ghost use Rattle.oso_code.specs.Steps.{Compute, Branch, Loop as LoopStep, Call, Leave};
ghost use Rattle.osl_interp.specs.Advances.{StopDone, one_op};
ghost use Rattle.oso_step.specs.Decoded.{seen_span, seen_way, seen_step};
ghost use Rattle.osl_interp.specs.Meaning.{configuration};
ghost use Rattle.osl_interp.specs.Ready.{Ready};

use crate::frame::{Frame, Mode};
use crate::known::{Met, first_met};
use crate::machine::Machine;
use crate::stop::LayerStop;
use bumpalo::Bump;
use osl_apply::{Slot, execute};
use osl_value::{Memory, OpName};
use oso_step::{LoopOp, Span, Step, Way, decode};

/// Whether a condition holds: it is an int that is not zero.
pub fn is_true(slot: &Slot<'_>) -> bool
    requires { IsTrue (fits AnInt (type_of (seen slot.now))) }
    ensures { result ≡ is_so (seen slot.now) }
{
    slot.int() != 0
}

/// Goes on with a range, with one more frame around it.
pub fn enter<'a>(m: &mut Machine<'a>, frame: Frame, range: Span) -> Result<(), Memory>
    ensures { OnOk result (configuration m.new ≡ record (configuration m.old) { frames = (configuration m.old).frames ++ frame ∷ []; at = range.start; end = range.end }) }
{
    m.frames.push(frame)?;
    m.at = range.start;
    m.end = range.end;
    Ok(())
}

/// An operation with a value.
fn compute<'a>(
    m: &mut Machine<'a>,
    arena: &'a Bump,
    name: OpName,
    target: u32,
    sources: &[u32],
) -> Result<Option<LayerStop>, Memory>
    requires ready { Ready (configuration m.old) }
    requires runs { m.old.mode ≡ Mode.Run }
    requires inside { m.old.at < m.old.end }
    requires op { slice_get (steps_of m.old.code.now) m.old.at ≡ Some (seen_step m.old.code.now.symbols (Step.Compute name target sources)) }
    ensures { IfOk result (λ stop. StopDone one_op (configuration m.old) (configuration m.new) stop) }
{
    match first_met(&m.inputs, sources) {
        Met::Waiting(p) => Ok(Some(LayerStop::Needs(p))),
        Met::Missing => Ok(Some(LayerStop::Spent)),
        Met::All => {
            execute(m.alloc, arena, &mut m.slots, name, target, sources)?;
            m.at += 1;
            Ok(None)
        }
    }
}

/// The side of a condition that is taken.
fn side(is_so: bool, holds: Span, fails: Span) -> Span
    ensures { result ≡ (if is_so then holds else fails) }
{
    if is_so { holds } else { fails }
}

/// A condition, and the range of the side that is taken.
fn branch<'a>(
    m: &mut Machine<'a>,
    c: u32,
    holds: Span,
    fails: Span,
) -> Result<Option<LayerStop>, Memory>
    requires ready { Ready (configuration m.old) }
    requires runs { m.old.mode ≡ Mode.Run }
    requires inside { m.old.at < m.old.end }
    requires op { slice_get (steps_of m.old.code.now) m.old.at ≡ Some (Branch c (seen_span holds) (seen_span fails)) }
    ensures { IfOk result (λ stop. StopDone one_op (configuration m.old) (configuration m.new) stop) }
{
    match first_met(&m.inputs, &[c]) {
        Met::Waiting(p) => Ok(Some(LayerStop::Needs(p))),
        Met::Missing => Ok(Some(LayerStop::Spent)),
        Met::All => {
            let side = side(is_true(&m.slots[c as usize]), holds, fails);
            let rest = Span {
                start: fails.end,
                end: m.end,
            };
            enter(m, Frame::Rest(rest), side)?;
            Ok(None)
        }
    }
}

/// A loop that tests its condition first.
fn test_first<'a>(m: &mut Machine<'a>, repeat: LoopOp) -> Result<Option<LayerStop>, Memory>
    requires ready { Ready (configuration m.old) }
    requires runs { m.old.mode ≡ Mode.Run }
    requires inside { m.old.at < m.old.end }
    requires op { slice_get (steps_of m.old.code.now) m.old.at ≡ Some (seen_step m.old.code.now.symbols (Step.Loop true repeat)) }
    ensures { IfOk result (λ stop. StopDone one_op (configuration m.old) (configuration m.new) stop) }
{
    let end = m.end;
    enter(m, Frame::Test(repeat, end), repeat.test)?;
    Ok(None)
}

/// A loop that begins with a turn.
fn turn_first<'a>(m: &mut Machine<'a>, repeat: LoopOp) -> Result<Option<LayerStop>, Memory>
    requires ready { Ready (configuration m.old) }
    requires runs { m.old.mode ≡ Mode.Run }
    requires inside { m.old.at < m.old.end }
    requires op { slice_get (steps_of m.old.code.now) m.old.at ≡ Some (seen_step m.old.code.now.symbols (Step.Loop false repeat)) }
    ensures { IfOk result (λ stop. StopDone one_op (configuration m.old) (configuration m.new) stop) }
{
    if m.turns == 0 {
        return Ok(Some(LayerStop::Spent));
    }
    m.turns -= 1;
    let end = m.end;
    enter(m, Frame::Body(repeat, end), repeat.body)?;
    Ok(None)
}

fn call<'a>(m: &mut Machine<'a>, body: Span) -> Result<Option<LayerStop>, Memory>
    requires ready { Ready (configuration m.old) }
    requires runs { m.old.mode ≡ Mode.Run }
    requires inside { m.old.at < m.old.end }
    requires op { slice_get (steps_of m.old.code.now) m.old.at ≡ Some (Call (seen_span body)) }
    ensures { IfOk result (λ stop. StopDone one_op (configuration m.old) (configuration m.new) stop) }
{
    let rest = Span {
        start: body.end,
        end: m.end,
    };
    enter(m, Frame::Called(rest), body)?;
    Ok(None)
}

/// A way out of ranges, or of the layer.
fn leave_by<'a>(m: &mut Machine<'a>, way: Way) -> Option<LayerStop>
    requires ready { Ready (configuration m.old) }
    requires runs { m.old.mode ≡ Mode.Run }
    requires inside { m.old.at < m.old.end }
    requires op { slice_get (steps_of m.old.code.now) m.old.at ≡ Some (Leave (seen_way way)) }
    ensures { StopDone one_op (configuration m.old) (configuration m.new) result }
{
    match way {
        Way::Break => m.mode = Mode::Break,
        Way::Continue => m.mode = Mode::Continue,
        Way::Return => m.mode = Mode::Return,
        Way::Exit => return Some(LayerStop::Done),
    }
    None
}

/// Runs the op at the machine's place, or enters its ranges.
pub fn op_step<'a>(m: &mut Machine<'a>, arena: &'a Bump) -> Result<Option<LayerStop>, Memory>
    requires ready { Ready (configuration m.old) }
    requires runs { m.old.mode ≡ Mode.Run }
    requires inside { m.old.at < m.old.end }
    ensures { IfOk result (λ stop. StopDone one_op (configuration m.old) (configuration m.new) stop) }
{
    let code = m.code;
    let op = &code.ops.as_slice()[m.at as usize];
    match decode(op, m.at) {
        Step::Compute(name, target, sources) => compute(m, arena, name, target, sources),
        Step::Branch(c, holds, fails) => branch(m, c, holds, fails),
        Step::Loop(true, repeat) => test_first(m, repeat),
        Step::Loop(false, repeat) => turn_first(m, repeat),
        Step::Call(body) => call(m, body),
        Step::Leave(way) => Ok(leave_by(m, way)),
    }
}
