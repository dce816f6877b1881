ghost use Rattle.std.specs.Prelude.{◌≡◌, ◌≤◌, ◌<◌, true, length, reverse, vec_len, IfOk, OnOk};
ghost use Rattle.std.specs.List.{list_all};
ghost use Rattle.osl_job.specs.SmallRun.{small_run, zeros, apply};
ghost use Rattle.osl_job.specs.SmallNames.{is_tied};
ghost use Rattle.osl_job.specs.Code as spec;

use crate::small::{Assignment, Expr, Param, SmallShader, SumOp};
use osl_value::{Fx, Memory};
use std::alloc::Global;

/// A step of a shader's code: it works on a stack of values, and on the variables by their numbers.
#[derive(Clone, Copy, Debug, PartialEq, Eq)]
pub enum Op {
    Push(Fx),
    Load(u32),
    /// The second operand is on top.
    Apply(SumOp),
    Store(u32),
}

/// The value of a shader's parameter after a run of the shader.
pub fn value_of(alloc: Global, shader: &SmallShader, param: u32) -> Result<Fx, Memory>
    requires tied { is_tied shader.now ≡ true }
    requires within { param < length shader.now.params }
    requires few { length shader.now.params ≤ 16 }
    ensures { IfOk result (λ value. value ≡ small_run shader.now param) }
{
    let ops = compile(alloc, shader)?;
    let values = run(alloc, ops.as_slice(), shader.params.len())?;
    Ok(values[param as usize])
}

/// The ops of a shader: each parameter gets its default, and then come the assignments.
fn compile(alloc: Global, shader: &SmallShader) -> Result<Vec<Op>, Memory>
    requires { length shader.now.params ≤ 16 }
    ensures { IfOk result (λ ops. spec.StandsFor shader.now ops.items) }
{
    let mut ops = Vec::new(alloc);
    append_defaults(&mut ops, shader.params.as_slice())?;
    append_body(&mut ops, shader.body.as_slice())?;
    Ok(ops)
}

fn append_defaults(ops: &mut Vec<Op>, params: &[Param]) -> Result<(), Memory>
    requires { length params.now ≤ 16 }
    ensures { OnOk result (spec.HoldsDefaults params.now ops.old.items ops.new.items) }
{
    for (number, param) in params.iter().enumerate() {
        append_store(ops, number as u32, &param.default)?;
    }
    Ok(())
}

fn append_body(ops: &mut Vec<Op>, body: &[Assignment]) -> Result<(), Memory>
    ensures { OnOk result (spec.Executes body.now ops.old.items ops.new.items) }
{
    for assignment in body {
        append_store(ops, assignment.target, &assignment.value)?;
    }
    Ok(())
}

/// The ops that give a variable the value of an expression.
fn append_store(ops: &mut Vec<Op>, target: u32, value: &Expr) -> Result<(), Memory>
    ensures { OnOk result (spec.StoresValue target value.now ops.old.items ops.new.items) }
{
    append_value(ops, value)?;
    ops.push(Op::Store(target))?;
    Ok(())
}

/// The ops that put the value of an expression on the stack.
fn append_value(ops: &mut Vec<Op>, value: &Expr) -> Result<(), Memory>
    ensures { OnOk result (spec.PushesValue value.now ops.old.items ops.new.items) }
{
    match value {
        Expr::Const(value) => ops.push(Op::Push(*value))?,
        Expr::Var(number) => ops.push(Op::Load(*number))?,
        Expr::Apply(op, left, right) => {
            append_value(ops, left.get())?;
            append_value(ops, right.get())?;
            ops.push(Op::Apply(*op))?;
        }
    }
    Ok(())
}

/// What the ops work on.
#[derive(Drop)]
struct State {
    stack: Vec<Fx>,
    vars: Vec<Fx>,
}

/// The variables after the ops, all zero before them.
fn run(alloc: Global, ops: &[Op], vars: usize) -> Result<Vec<Fx>, Memory>
    requires { list_all (spec.op_fits vars) ops.now ≡ true }
    ensures { IfOk result (λ values. spec.Holds (spec.run ops.now spec.start).env vars values.items) }
{
    let mut state = State {
        stack: Vec::new(alloc),
        vars: zeros(alloc, vars)?,
    };
    for op in ops {
        act(&mut state, *op)?;
    }
    let State { stack: _, vars } = state;
    Ok(vars)
}

fn zeros(alloc: Global, count: usize) -> Result<Vec<Fx>, Memory>
    ensures { IfOk result (λ values. spec.Holds zeros count values.items) }
{
    let mut values = Vec::new(alloc);
    for _number in 0..count {
        values.push(Fx::ZERO)?;
    }
    Ok(values)
}

fn act(state: &mut State, op: Op) -> Result<(), Memory>
    requires { spec.op_fits (vec_len state.old.vars) op ≡ true }
    ensures { OnOk result (spec.Acts op state.old state.new) }
{
    match op {
        Op::Push(value) => state.stack.push(value)?,
        Op::Load(number) => {
            let value = state.vars[number as usize];
            state.stack.push(value)?;
        }
        Op::Apply(op) => apply_top(&mut state.stack, op)?,
        Op::Store(number) => {
            if let Some(value) = state.stack.pop() {
                state.vars[number as usize] = value;
            }
        }
    }
    Ok(())
}

/// Puts the value of an operation in place of its two operands.
fn apply_top(stack: &mut Vec<Fx>, op: SumOp) -> Result<(), Memory>
    ensures { OnOk result (reverse stack.new.items ≡ spec.applied op (reverse stack.old.items)) }
{
    let Some(right) = stack.pop() else {
        return Ok(());
    };
    let Some(left) = stack.pop() else {
        stack.push(right)?;
        return Ok(());
    };
    stack.push(apply(op, left, right))?;
    Ok(())
}

fn apply(op: SumOp, left: Fx, right: Fx) -> Fx
    ensures { result ≡ apply op left right }
{
    match op {
        SumOp::Add => left.add(right),
        SumOp::Sub => left.sub(right),
    }
}
