//! The end of a range.

ghost use Rattle.std.specs.Prelude.{◌≡◌, ◌-◌, ◌≤◌, ◌++◌, ◌∷◌, [], None, length, slice_get, IfOk};
ghost use Rattle.osl_interp.specs.Advances.{Advances, StopDone, IsLast, no_op};
ghost use Rattle.osl_interp.specs.Meaning.{configuration};
ghost use Rattle.osl_interp.specs.Ready.{Ready};

use crate::frame::{Frame, Mode};
use crate::known::{Met, first_met, is_run};
use crate::machine::Machine;
use crate::ops::{enter, is_true};
use crate::stop::LayerStop;
use osl_value::Memory;
use oso_code::Section;
use oso_step::{LoopOp, Span};

/// The innermost frame.
fn innermost(frames: &Vec<Frame>) -> Option<Frame>
    ensures { result ≡ slice_get frames.now.items (length frames.now.items - 1) }
{
    match frames.last() {
        Some(f) => Some(*f),
        None => None,
    }
}

/// Takes the innermost frame off.
fn take<'a>(m: &mut Machine<'a>, f: Frame)
    requires { IsLast f m.old.frames.items }
    ensures { configuration m.old ≡ record (configuration m.new) { frames = (configuration m.new).frames ++ f ∷ [] } }
{
    let _ = m.frames.pop();
}

/// Goes on with a range.
fn go_on<'a>(m: &mut Machine<'a>, range: Span)
    ensures { configuration m.new ≡ record (configuration m.old) { mode = Mode.Run; at = range.start; end = range.end } }
{
    m.mode = Mode::Run;
    m.at = range.start;
    m.end = range.end;
}

/// A range inside the rest of another one is over or left.
fn rest_step<'a>(m: &mut Machine<'a>, rest: Span)
    requires top { IsLast (Frame.Rest rest) m.old.frames.items }
    requires ready { Ready (configuration m.old) }
    requires past { m.old.mode ≡ Mode.Run → m.old.end ≤ m.old.at }
    ensures { Advances no_op (configuration m.old) (configuration m.new) }
{
    take(m, Frame::Rest(rest));
    match m.mode {
        Mode::Run => go_on(m, rest),
        Mode::Break | Mode::Continue | Mode::Return => {}
    }
}

/// A called range is over or left.
fn called_step<'a>(m: &mut Machine<'a>, rest: Span)
    requires top { IsLast (Frame.Called rest) m.old.frames.items }
    requires ready { Ready (configuration m.old) }
    requires past { m.old.mode ≡ Mode.Run → m.old.end ≤ m.old.at }
    ensures { Advances no_op (configuration m.old) (configuration m.new) }
{
    take(m, Frame::Called(rest));
    go_on(m, rest);
}

/// A loop's condition was computed: the loop ends, or a turn of it begins.
fn tested_step<'a>(
    m: &mut Machine<'a>,
    repeat: LoopOp,
    end: u32,
) -> Result<Option<LayerStop>, Memory>
    requires top { IsLast (Frame.Test repeat end) m.old.frames.items }
    requires ready { Ready (configuration m.old) }
    requires runs { m.old.mode ≡ Mode.Run }
    requires past { m.old.end ≤ m.old.at }
    ensures { IfOk result (λ stop. StopDone no_op (configuration m.old) (configuration m.new) stop) }
{
    match first_met(&m.inputs, &[repeat.condition]) {
        Met::Waiting(p) => return Ok(Some(LayerStop::Needs(p))),
        Met::Missing => return Ok(Some(LayerStop::Spent)),
        Met::All => {}
    }
    if !is_true(&m.slots[repeat.condition as usize]) {
        take(m, Frame::Test(repeat, end));
        go_on(m, behind(repeat, end));
        return Ok(None);
    }
    if m.turns == 0 {
        return Ok(Some(LayerStop::Spent));
    }
    take(m, Frame::Test(repeat, end));
    m.turns -= 1;
    enter(m, Frame::Body(repeat, end), repeat.body)?;
    Ok(None)
}

/// The rest of the range around a loop.
fn behind(repeat: LoopOp, end: u32) -> Span
    ensures { result ≡ record { start = repeat.step.end; end = end } }
{
    Span {
        start: repeat.step.end,
        end,
    }
}

/// The range of a loop's condition is over or left.
fn test_step<'a>(m: &mut Machine<'a>, repeat: LoopOp, end: u32) -> Result<Option<LayerStop>, Memory>
    requires top { IsLast (Frame.Test repeat end) m.old.frames.items }
    requires ready { Ready (configuration m.old) }
    requires past { m.old.mode ≡ Mode.Run → m.old.end ≤ m.old.at }
    ensures { IfOk result (λ stop. StopDone no_op (configuration m.old) (configuration m.new) stop) }
{
    match m.mode {
        Mode::Run => tested_step(m, repeat, end),
        Mode::Break | Mode::Continue | Mode::Return => {
            take(m, Frame::Test(repeat, end));
            Ok(None)
        }
    }
}

/// A loop's body is over or left.
fn body_step<'a>(m: &mut Machine<'a>, repeat: LoopOp, end: u32) -> Result<Option<LayerStop>, Memory>
    requires top { IsLast (Frame.Body repeat end) m.old.frames.items }
    requires ready { Ready (configuration m.old) }
    requires past { m.old.mode ≡ Mode.Run → m.old.end ≤ m.old.at }
    ensures { IfOk result (λ stop. StopDone no_op (configuration m.old) (configuration m.new) stop) }
{
    take(m, Frame::Body(repeat, end));
    match m.mode {
        Mode::Run | Mode::Continue => {
            m.mode = Mode::Run;
            enter(m, Frame::Step(repeat, end), repeat.step)?;
        }
        Mode::Break => go_on(m, behind(repeat, end)),
        Mode::Return => {}
    }
    Ok(None)
}

/// A loop's step is over or left.
fn step_step<'a>(m: &mut Machine<'a>, repeat: LoopOp, end: u32) -> Result<Option<LayerStop>, Memory>
    requires top { IsLast (Frame.Step repeat end) m.old.frames.items }
    requires ready { Ready (configuration m.old) }
    requires past { m.old.mode ≡ Mode.Run → m.old.end ≤ m.old.at }
    ensures { IfOk result (λ stop. StopDone no_op (configuration m.old) (configuration m.new) stop) }
{
    take(m, Frame::Step(repeat, end));
    match m.mode {
        Mode::Run => enter(m, Frame::Test(repeat, end), repeat.test)?,
        Mode::Break | Mode::Continue | Mode::Return => {}
    }
    Ok(None)
}

fn section_at(sections: &[Section], k: usize) -> Option<Section>
    ensures { result ≡ slice_get sections.now k }
{
    match sections.get(k) {
        Some(section) => Some(*section),
        None => None,
    }
}

/// A section is over: the next one is run or passed over.
fn section_step<'a>(m: &mut Machine<'a>) -> Option<LayerStop>
    requires ready { Ready (configuration m.old) }
    requires runs { m.old.mode ≡ Mode.Run }
    requires past { m.old.end ≤ m.old.at }
    requires last { m.old.frames.items ≡ [] }
    ensures { StopDone no_op (configuration m.old) (configuration m.new) result }
{
    let Some(section) = section_at(m.code.sections.as_slice(), m.section) else {
        return Some(LayerStop::Done);
    };
    m.section += 1;
    if is_run(&m.inputs, section.param) {
        m.at = section.start;
        m.end = section.end;
    }
    None
}

/// A section is over or left.
fn end_step<'a>(m: &mut Machine<'a>) -> Option<LayerStop>
    requires ready { Ready (configuration m.old) }
    requires past { m.old.mode ≡ Mode.Run → m.old.end ≤ m.old.at }
    requires last { m.old.frames.items ≡ [] }
    ensures { StopDone no_op (configuration m.old) (configuration m.new) result }
{
    match m.mode {
        Mode::Run => section_step(m),
        Mode::Break | Mode::Continue | Mode::Return => Some(LayerStop::Done),
    }
}

/// Leaves the innermost range, whose end is reached or which is left.
pub fn leave<'a>(m: &mut Machine<'a>) -> Result<Option<LayerStop>, Memory>
    requires ready { Ready (configuration m.old) }
    requires past { m.old.mode ≡ Mode.Run → m.old.end ≤ m.old.at }
    ensures { IfOk result (λ stop. StopDone no_op (configuration m.old) (configuration m.new) stop) }
{
    match innermost(&m.frames) {
        None => Ok(end_step(m)),
        Some(Frame::Rest(rest)) => {
            rest_step(m, rest);
            Ok(None)
        }
        Some(Frame::Called(rest)) => {
            called_step(m, rest);
            Ok(None)
        }
        Some(Frame::Test(repeat, end)) => test_step(m, repeat, end),
        Some(Frame::Body(repeat, end)) => body_step(m, repeat, end),
        Some(Frame::Step(repeat, end)) => step_step(m, repeat, end),
    }
}
