//! Layers in tables, run to their ends: what they ask for, and what they give. Numbers were worked out by hand or by
//! exact arithmetic.

ghost use Rattle.std.specs.Prelude.{◌≡◌, ◌<◌, true, IfOk, IfSome, OnOk};
ghost use Rattle.osl_interp.specs.Calls.{MayGo};

mod closures;
mod control;
mod globals;
mod inputs;
mod operations;

use bumpalo::Bump;
use osl_interp::{Given, LayerRun, LayerStop, OutRef, Status, Steps, inputs_fit};
use osl_value::{Fx, LayerValues, Memory, Point};
use oso_code::Shader;
use std::alloc::Global;
use std::marker::Brand;
use std::sync::ledger::{Blank, Ledger};

/// A layer, and what it is given at the start.
#[derive(Clone, Copy)]
pub struct Layer<'a> {
    pub shader: &'a Shader,
    pub fixed: &'a LayerValues,
    pub wired: &'a [bool],
    pub budget: u32,
}

/// A point of which each number is another one.
fn point() -> Point {
    Point {
        p: [Fx::from_units(1), Fx::from_units(2), Fx::from_units(3)],
        n: [Fx::from_units(4), Fx::from_units(5), Fx::from_units(6)],
        ng: [Fx::from_units(7), Fx::from_units(8), Fx::from_units(9)],
        i: [Fx::from_units(10), Fx::from_units(11), Fx::from_units(12)],
        u: Fx::from_units(13),
        v: Fx::from_units(14),
    }
}

fn begun<'a>(alloc: Global, layer: &Layer<'a>) -> Result<LayerRun<'a>, Memory>
    ensures { IfOk result (λ run. MayGo run.status) }
{
    if !inputs_fit(layer.shader, layer.fixed, layer.wired) {
        return Err(Memory);
    }
    let run = LayerRun::start(
        alloc,
        layer.shader,
        layer.fixed,
        layer.wired,
        &point(),
        layer.budget,
    )?;
    Ok(run)
}

/// Gives a run what it waits for.
fn give<'a>(run: &mut LayerRun<'a>, param: u32, given: &Given<'_, 'a>) -> Result<(), Memory>
    requires { run.old.status ≡ Status.Stopped (LayerStop.Needs param) }
    ensures { OnOk result (MayGo run.new.status) }
{
    if !run.accepts(param, given) {
        return Err(Memory);
    }
    match given {
        Given::Value(value) => run.give(param, Given::Value(value))?,
        Given::Closure(node) => run.give(param, Given::Closure(node.share()))?,
        Given::Nothing => run.give(param, Given::Nothing)?,
    }
    Ok(())
}

/// Runs a layer to its end; each parameter that it asks for is given its entry. It answers whether the run is done.
fn finish<'a, L: Ledger, M: Ledger>(
    run: &mut LayerRun<'a>,
    arena: &'a Bump,
    entries: &[Given<'_, 'a>],
    asked: &mut Vec<u32>,
    layers: &mut Steps<L>,
    ops: &mut Steps<M>,
) -> Result<bool, Memory>
    requires { MayGo run.old.status }
    ensures { IfOk result (λ done. done ≡ true → run.new.status ≡ Status.Stopped LayerStop.Done) }
{
    for _turn in 0..9 {
        match run.go(arena, layers, ops)? {
            LayerStop::Done => return Ok(true),
            LayerStop::Spent => return Ok(false),
            LayerStop::Needs(param) => {
                asked.push(param)?;
                match entries.get(param as usize) {
                    Some(given) => give(run, param, given)?,
                    None => return Err(Memory),
                }
            }
        }
    }
    Err(Memory)
}

fn counted<'a, L: Ledger, M: Ledger>(
    run: &mut LayerRun<'a>,
    arena: &'a Bump,
    entries: &[Given<'_, 'a>],
    asked: &mut Vec<u32>,
    layers: Blank,
    ops: Blank,
) -> Result<bool, Memory>
    requires ready { MayGo run.old.status }
    requires layers { (layers.name ≡ L.name) × (layers.parts ≡ L.parts) }
    requires layers_parts { 0 < L.parts }
    requires ops { (ops.name ≡ M.name) × (ops.parts ≡ M.parts) }
    requires ops_parts { 0 < M.parts }
    ensures { IfOk result (λ done. done ≡ true → run.new.status ≡ Status.Stopped LayerStop.Done) }
{
    let mut layers: Steps<L> = Steps::new(layers);
    let mut ops: Steps<M> = Steps::new(ops);
    finish(run, arena, entries, asked, &mut layers, &mut ops)
}

/// The run of a layer that is done, or none where it is spent, and the parameters that it asked for.
pub fn ended<'a>(
    alloc: Global,
    arena: &'a Bump,
    layer: &Layer<'a>,
    entries: &[Given<'_, 'a>],
    asked: &mut Vec<u32>,
) -> Result<Option<LayerRun<'a>>, Memory>
    ensures { IfOk result (λ run. IfSome run (λ run. run.status ≡ Status.Stopped LayerStop.Done)) }
{
    let mut run = begun(alloc, layer)?;
    let is_done = counted::<Brand, Brand>(
        &mut run,
        arena,
        entries,
        asked,
        Blank::new(1),
        Blank::new(1),
    )?;
    if is_done { Ok(Some(run)) } else { Ok(None) }
}

/// An output of a run that is done, or none where the parameter is no output.
pub fn output<'s, 'a>(run: &'s LayerRun<'a>, param: u32) -> Option<OutRef<'s, 'a>>
    requires { run.now.status ≡ Status.Stopped LayerStop.Done }
{
    if run.is_output(param) {
        Some(run.output(param))
    } else {
        None
    }
}
