//! Steps, one after another.

ghost use Rattle.std.specs.Prelude.{true, false, ◌≡◌, ◌+◌, ◌≤◌, ◌<◌, IfOk, OnErr};
ghost use Rattle.osl_interp.specs.Stops.{StepDone, EndDone, KeptAt, Counted, ticks_at};
ghost use Rattle.osl_interp.specs.Meaning.{configuration};
ghost use Rattle.osl_interp.specs.Ready.{Ready};

use crate::frame::Mode;
use crate::leave::leave;
use crate::machine::Machine;
use crate::ops::op_step;
use crate::outputs::settle;
use crate::steps::Steps;
use crate::stop::LayerStop;
use bumpalo::Bump;
use osl_value::Memory;
use std::sync::ledger::Ledger;

/// Whether an op is to be run, and no range is left.
fn is_running<'a>(m: &Machine<'a>) -> bool
    ensures yes { result ≡ true → (m.now.mode ≡ Mode.Run) × (m.now.at < m.now.end) }
    ensures unless { result ≡ false → m.now.mode ≡ Mode.Run → m.now.end ≤ m.now.at }
{
    match m.mode {
        Mode::Run => m.at < m.end,
        Mode::Break | Mode::Continue | Mode::Return => false,
    }
}

/// Counts an op at which the run stops: one that waits is counted when it is run.
fn tick_at<L: Ledger>(stop: LayerStop, ops: &mut Steps<L>)
    ensures { ops.new ≡ ops.old + ticks_at stop }
{
    match stop {
        LayerStop::Done | LayerStop::Spent => ops.tick(),
        LayerStop::Needs(_) => {}
    }
}

/// One step: an op, which counts unless it waits, or the end of a range.
fn step<'a, L: Ledger>(
    m: &mut Machine<'a>,
    arena: &'a Bump,
    ops: &mut Steps<L>,
) -> Result<Option<LayerStop>, Memory>
    requires { Ready (configuration m.old) }
    ensures stop { IfOk result (λ stop. StepDone (configuration m.old) (configuration m.new) ops.old ops.new stop) }
    ensures err { OnErr result (ops.new ≡ ops.old) }
{
    if !is_running(m) {
        let stop = leave(m)?;
        return Ok(stop);
    }
    match op_step(m, arena)? {
        None => {
            ops.tick();
            Ok(None)
        }
        Some(stop) => {
            tick_at(stop, ops);
            Ok(Some(stop))
        }
    }
}

/// Runs until the run is over, spent, or at the read of a connected parameter that was not given.
pub fn run<'a, L: Ledger>(
    m: &mut Machine<'a>,
    arena: &'a Bump,
    ops: &mut Steps<L>,
) -> Result<LayerStop, Memory>
    requires { Ready (configuration m.old) }
    ensures end { IfOk result (λ stop. EndDone (configuration m.old) (configuration m.new) ops.old ops.new stop) }
    ensures ops { Counted (configuration m.old) ops.old ops.new }
{
    'steps: loop {
        if let Some(stop) = step(m, arena, ops)? {
            return Ok(stop);
        }
    }
}

/// Runs likewise, and keeps the outputs of a run that is over as values that can be lent.
pub fn run_on<'a, L: Ledger>(
    m: &mut Machine<'a>,
    arena: &'a Bump,
    ops: &mut Steps<L>,
) -> Result<LayerStop, Memory>
    requires { Ready (configuration m.old) }
    ensures end { IfOk result (λ stop. EndDone (configuration m.old) (configuration m.new) ops.old ops.new stop) }
    ensures kept { IfOk result (λ stop. KeptAt stop m.new.code.now.symbols m.new.slots.items) }
    ensures ops { Counted (configuration m.old) ops.old ops.new }
{
    match run(m, arena, ops)? {
        LayerStop::Done => {
            settle(m)?;
            Ok(LayerStop::Done)
        }
        LayerStop::Spent => Ok(LayerStop::Spent),
        LayerStop::Needs(p) => Ok(LayerStop::Needs(p)),
    }
}
