//! The globals of the point that a layer is run at.

use super::{Layer, ended, output};
use crate::code::{body, ops, shader, symbol, zero};
use bumpalo::Bump;
use osl_interp::{Given, OutRef};
use osl_value::{Base, LayerValues, Memory, OpName, Ty, Value};
use oso_code::{Class, Shader};
use std::alloc::Global;
use std::test::Fail;

/// A global's name and base type, and the units of its numbers at the point of the tests.
struct Row {
    name: &'static str,
    base: Base,
    units: &'static [i64],
}

static ROWS: [Row; 6] = [
    Row {
        name: "P",
        base: Base::Point,
        units: &[1, 2, 3],
    },
    Row {
        name: "N",
        base: Base::Normal,
        units: &[4, 5, 6],
    },
    Row {
        name: "Ng",
        base: Base::Normal,
        units: &[7, 8, 9],
    },
    Row {
        name: "I",
        base: Base::Vector,
        units: &[10, 11, 12],
    },
    Row {
        name: "u",
        base: Base::Float,
        units: &[13],
    },
    Row {
        name: "v",
        base: Base::Float,
        units: &[14],
    },
];

/// A layer whose output is a global.
fn layer(alloc: Global, row: &Row) -> Result<Shader, Memory> {
    let ty = Ty::only(row.base);
    let mut symbols = Vec::new(alloc);
    symbols.push(symbol(alloc, Class::Oparam, "r", ty, zero(alloc, ty)?)?)?;
    symbols.push(symbol(alloc, Class::Global, row.name, ty, None)?)?;
    let lines = [(OpName::Assign, [0, 1].as_slice(), [].as_slice())];
    let ops = ops(alloc, &lines)?;
    let sections = body(alloc, &ops)?;
    shader(alloc, symbols, sections, ops)
}

fn is(found: &Value, row: &Row) -> bool {
    found.ty() == Ty::only(row.base) && found.nums() == row.units
}

/// Whether the output is the global's value at the point.
fn holds(alloc: Global, row: &Row) -> Result<bool, Memory> {
    let shader = layer(alloc, row)?;
    let mut none = Vec::new(alloc);
    none.push(None)?;
    let fixed = LayerValues::new(none);
    let arena = Bump::new(alloc);
    let layer = Layer {
        shader: &shader,
        fixed: &fixed,
        wired: &[false],
        budget: 0,
    };
    let mut asked = Vec::new(alloc);
    let entries: [Given<'_, '_>; 0] = [];
    let Some(run) = ended(alloc, &arena, &layer, &entries, &mut asked)? else {
        return Ok(false);
    };
    match output(&run, 0) {
        Some(OutRef::Value(found)) => Ok(is(found, row)),
        _ => Ok(false),
    }
}

#[test]
fn globals_are_those_of_the_point(rt: HostRuntime) -> Result<(), Fail> {
    let alloc = rt.alloc();
    for row in &ROWS {
        assert!(rt; holds(alloc, row)?, "{}", row.name);
    }
    Ok(())
}
