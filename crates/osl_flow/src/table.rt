//! The table of what is around each op.

ghost use Rattle.std.specs.Prelude.{◌≡◌, ◌<◌, ◌≤◌, ◌+◌, ◌^◌, List, IfOk, length, replicate};
ghost use Rattle.oso_code.specs.Ranges.{steps_of};
ghost use Rattle.oso_code.specs.Valid.{IsValid};
ghost use Rattle.oso_code.specs.declared.symbol.Symbol.{Symbol};
ghost use Rattle.oso_step.specs.Decoded.{seen_step};
ghost use Rattle.osl_rewrites.specs.Flow.{Surrounds};
ghost use Rattle.osl_flow.specs.Table.{nowhere, table_of, noted, marked, Walked};

use crate::contexts::{
    within_body, within_branch, within_call, within_section, within_step, within_test,
};
use osl_rewrites::{Around, Spot};
use osl_value::Memory;
use oso_code::{Raw, Shader};
use oso_step::{Step, decode};
use std::alloc::Global;

/// Notes what is around the range that begins at a place, if it is not empty.
fn note(table: &mut [Around], at: u32, a: Around)
    ensures { table.new ≡ noted at a table.old }
{
    if at < a.end && (at as usize) < table.len() {
        table[at as usize] = a;
    }
}

/// Notes what is around the ranges of an op, and around what follows it.
fn mark(table: &mut [Around], i: u32, step: &Step<'_>)
    requires fits { i + 1 < 2 ^ 32 }
    requires within { i < length table.old }
    ensures { (symbols : List Symbol) → table.new ≡ marked i (seen_step symbols step.now) (table_of table.old i) table.old }
{
    let a = table[i as usize];
    match *step {
        Step::Compute(_, _, _) => note(table, i + 1, a),
        Step::Branch(_, holds, fails) => {
            note(table, holds.start, within_branch(holds, fails, a));
            note(table, fails.start, within_branch(fails, fails, a));
            note(table, fails.end, a);
        }
        Step::Loop(_, l) => {
            note(table, l.test.start, within_test(i, l.test, a));
            note(table, l.body.start, within_body(i, l, a));
            note(table, l.step.start, within_step(i, l, a));
            note(table, l.step.end, a);
        }
        Step::Call(body) => {
            note(table, body.start, within_call(body, a));
            note(table, body.end, a);
        }
        Step::Leave(_) => note(table, i + 1, a),
    }
}

/// Notes what is around the sections.
fn note_sections(table: &mut [Around], code: &Raw)
    requires valid { IsValid code.now }
    requires empty { table.old ≡ replicate (length code.now.ops) nowhere }
    ensures walked { Walked (steps_of code.now) code.now.sections 0 (table_of table.new) }
    ensures size { length table.new ≡ length code.now.ops }
{
    let mut j = 0u32;
    for section in code.sections.as_slice() {
        note(table, section.start, within_section(j, *section));
        j += 1;
    }
}

/// Notes what is around the ranges of all ops.
fn note_ops(table: &mut [Around], code: &Raw)
    requires valid { IsValid code.now }
    requires size { length table.old ≡ length code.now.ops }
    requires walked { Walked (steps_of code.now) code.now.sections 0 (table_of table.old) }
    ensures { Surrounds (steps_of code.now) code.now.sections (table_of table.new) }
{
    let mut i = 0u32;
    for op in code.ops.as_slice() {
        let step = decode(op, i);
        mark(table, i, &step);
        i += 1;
    }
}

/// What is around each op of a shader's code.
pub fn surroundings(alloc: Global, code: &Shader) -> Result<Vec<Around>, Memory>
    ensures surrounds { IfOk result (λ table. Surrounds (steps_of code.now) code.now.sections (table_of table.items)) }
    ensures size { IfOk result (λ table. length table.items ≡ length code.now.ops) }
{
    let raw = code.raw();
    let nowhere = Around {
        end: 0,
        next: Spot::Done,
        breaks: Spot::Done,
        continues: Spot::Done,
        returns: Spot::Done,
    };
    let mut table = vec![in alloc; nowhere; raw.ops.len()]?;
    note_sections(&mut table, raw);
    note_ops(&mut table, raw);
    Ok(table)
}
