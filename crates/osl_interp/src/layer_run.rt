//! The run of a layer, as its callers see it.

ghost use Rattle.std.specs.Prelude.{◌≡◌, ◌+◌, ◌↔◌, Some, None, IsTrue, option_map, slice_get, IfOk, OnOk, OnErr};
ghost use Rattle.osl_value.specs.AnyValue.{type_of};
ghost use Rattle.osl_apply.specs.Slots.{seen};
ghost use Rattle.oso_code.specs.Ops.{type_at};
ghost use Rattle.osl_interp.specs.Calls.{InputsFit, HasType, IsOutput, MayGo, GoDone, Counted, begun, gave, begins, input_of, seen_output, is_lost};
ghost use Rattle.osl_interp.specs.Progress.{IsSound, outputs_of, closure_of};

use crate::known::Known;
use crate::machine::Machine;
use crate::outputs::closure_in_slots;
use crate::run::run_on;
use crate::start::first_machine;
use crate::steps::Steps;
use crate::stop::LayerStop;
use bumpalo::Bump;
use osl_apply::Slot;
use osl_closure::Node;
use osl_value::{Base, LayerValues, Memory, Point, Ty, Value};
use oso_code::{Class, Shader, Symbol};
use std::alloc::Global;
use std::marker::Model;
use std::snapshot::Snapshot;
use std::sync::ledger::Ledger;

/// How far a run has come.
#[derive(Clone, Copy, Debug, PartialEq, Eq)]
pub enum Status {
    /// It has not begun.
    Fresh,

    /// It was given the parameter of this number, at whose read it stopped.
    Resumed(u32),

    Stopped(LayerStop),

    /// It ran out of memory, and is only dropped.
    Lost,
}

/// What a connected parameter is given.
#[derive(Drop)]
pub enum Given<'s, 'a> {
    Value(&'s Value),
    Closure(Node<'a>),

    /// The layer that it is connected to gives nothing.
    Nothing,
}

/// An output of a run.
#[derive(Drop)]
pub enum OutRef<'s, 'a> {
    Value(&'s Value),
    Closure(Node<'a>),
}

/// A run of one layer's code at one point. Contracts see it as what it runs, what is known of its inputs, and how far it
/// has come (`Progress`).
#[derive(Drop)]
pub struct LayerRun<'a> {
    code: &'a Shader,
    machine: Machine<'a>,
    status: Status,

    // What it began with, which contracts alone read.
    fixed: Snapshot<LayerValues>,
    point: Snapshot<Point>,
    budget: Snapshot<u32>,
}

impl<'a> Model for LayerRun<'a> {
    ghost use Rattle.osl_interp.specs.Progress.{Progress};

    ghost Value = { Progress };

    ghost use Rattle.osl_interp.specs.View.{progress, IsRun};

    ghost view = { progress };

    ghost invariant = { IsRun };
}

impl<'a> LayerRun<'a> {
    /// A run that has not begun, of a layer with these instance values, of which these parameters are connected.
    /// `inputs_fit` says whether they fit the shader.
    pub fn start(
        alloc: Global,
        code: &'a Shader,
        fixed: &'a LayerValues,
        wired: &'a [bool],
        point: &Point,
        budget: u32,
    ) -> Result<LayerRun<'a>, Memory>
        requires { InputsFit code.now fixed.now wired.now }
        ensures { IfOk result (λ run. run ≡ begun code.now fixed.now wired.now point.now budget) }
    {
        let machine = first_machine(alloc, code.raw(), fixed, wired, point, budget)?;
        Ok(LayerRun {
            code,
            machine,
            status: Status::Fresh,
            fixed: Snapshot::of(fixed),
            point: Snapshot::of(point),
            budget: Snapshot::of(&budget),
        })
    }

    /// The code that it runs.
    pub fn code(&self) -> &'a Shader
        ensures { result.now ≡ self.now.code }
    {
        self.code
    }

    /// How far it has come. What holds of every run is the clause `sound`.
    pub fn status(&self) -> Status
        ensures value { result ≡ self.now.status }
        ensures sound { IsSound self.now }
    {
        self.status
    }

    /// Runs until the run is done, spent, or at the read of a connected parameter that was not given.
    /// The first call ticks `layers`; `ops` ticks each time that the run comes to an op from outside its ranges. Whatever the
    /// answer, `ops` has risen by no more than what the whole run counts. After `Memory` the run is only dropped.
    pub fn go<L: Ledger, M: Ledger>(
        &mut self,
        arena: &'a Bump,
        layers: &mut Steps<L>,
        ops: &mut Steps<M>,
    ) -> Result<LayerStop, Memory>
        requires { MayGo self.old.status }
        ensures stop { IfOk result (λ stop. GoDone self.old self.new ops.old ops.new stop) }
        ensures lost { OnErr result (IsTrue (is_lost self.new.status)) }
        ensures layers { layers.new ≡ layers.old + begins self.old.status }
        ensures ops { Counted self.old ops.old ops.new }
    {
        if self.status == Status::Fresh {
            layers.tick();
        }
        self.status = Status::Lost;
        let stop = run_on(&mut self.machine, arena, ops)?;
        self.status = Status::Stopped(stop);
        Ok(stop)
    }

    /// Whether what would be given has the parameter's type.
    pub fn accepts(&self, param: u32, input: &Given<'_, '_>) -> bool
        ensures { IsTrue result ↔ HasType self.now.code param (input_of input.now) }
    {
        match input {
            Given::Value(value) => value.ty() == type_of_param(self.code, param),
            Given::Closure(_) => Ty::only(Base::Closure) == type_of_param(self.code, param),
            Given::Nothing => true,
        }
    }

    /// Gives the parameter that the run waits for. After `Memory` the run waits still.
    pub fn give(&mut self, param: u32, input: Given<'_, 'a>) -> Result<(), Memory>
        requires asks { self.old.status ≡ Status.Stopped (LayerStop.Needs param) }
        requires fits { HasType self.old.code param (input_of input) }
        ensures gave { OnOk result (self.new ≡ gave self.old param (input_of input.entry)) }
        ensures waits { OnErr result (self.new ≡ self.old) }
    {
        match input {
            Given::Value(value) => {
                let slot = Slot::copied(self.machine.alloc, value)?;
                self.take_value(param, slot);
                Ok(())
            }
            Given::Closure(node) => {
                self.take_value(param, Slot::Closure(node));
                Ok(())
            }
            Given::Nothing => {
                self.take_nothing(param);
                Ok(())
            }
        }
    }

    fn take_value(&mut self, param: u32, slot: Slot<'a>)
        requires asks { self.old.status ≡ Status.Stopped (LayerStop.Needs param) }
        requires fits { type_of (seen slot) ≡ type_at self.old.code.symbols param }
        ensures { self.new ≡ gave self.old param (Some (seen slot.entry)) }
    {
        self.machine.slots[param as usize] = slot;
        self.machine.inputs[param as usize] = Known::Given;
        self.status = Status::Resumed(param);
    }

    fn take_nothing(&mut self, param: u32)
        requires { self.old.status ≡ Status.Stopped (LayerStop.Needs param) }
        ensures { self.new ≡ gave self.old param None }
    {
        self.machine.inputs[param as usize] = Known::Nothing;
        self.status = Status::Resumed(param);
    }

    /// Whether a parameter is an output.
    pub fn is_output(&self, param: u32) -> bool
        ensures { IsTrue result ↔ IsOutput self.now.code param }
    {
        match symbol_at(self.code, param) {
            Some(symbol) => symbol.class == Class::Oparam,
            None => false,
        }
    }

    /// The value of an output of a run that is done.
    pub fn output(&self, param: u32) -> OutRef<'_, 'a>
        requires done { self.now.status ≡ Status.Stopped LayerStop.Done }
        requires output { IsOutput self.now.code param }
        ensures value { slice_get (outputs_of self.now) param ≡ Some (Some (seen_output result)) }
        ensures typed { type_of (seen_output result) ≡ type_at self.now.code.symbols param }
    {
        match &self.machine.slots[param as usize] {
            Slot::Whole(value) => OutRef::Value(value),
            Slot::Lent(value) => OutRef::Value(value),
            Slot::Closure(node) => OutRef::Closure(node.share()),
            Slot::Int(_) | Slot::Float(_) | Slot::Triple(_, _) | Slot::Str(_) => unreachable!(),
        }
    }

    /// The closure of the layer, of a run that is done.
    pub fn ci(&self) -> Node<'a>
        requires { self.now.status ≡ Status.Stopped LayerStop.Done }
        ensures { result ≡ closure_of self.now }
    {
        closure_in_slots(self.machine.code.symbols.as_slice(), &self.machine.slots)
    }
}

/// The symbol of a number.
fn symbol_at(code: &Shader, k: u32) -> Option<&Symbol>
    ensures { option_map (λ s. s.now) result ≡ slice_get code.now.symbols k }
{
    code.raw().symbols.as_slice().get(k as usize)
}

/// The type of the symbol of a number, `int` where there is none.
fn type_of_param(code: &Shader, k: u32) -> Ty
    ensures { result ≡ type_at code.now.symbols k }
{
    match symbol_at(code, k) {
        Some(symbol) => symbol.ty,
        None => Ty::only(Base::Int),
    }
}
