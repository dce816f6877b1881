//! Which instance values and connections fit a shader.

use crate::code::{Sample, body, ops, shader, symbol, value, zero};
use osl_interp::inputs_fit;
use osl_value::{Base, LayerValues, Memory, OpName, Ty};
use oso_code::{Class, Shader};
use std::alloc::Global;
use std::test::Fail;

/// Instance values and connections of a shader that has the parameters `float a`, `closure color c` and `output int r`.
struct Row {
    fixed: &'static [Option<Sample>],
    wired: &'static [bool],
    fit: bool,
}

const ONE: Sample = (Base::Float, 0, &[1_000_000_000], &[]);

const TWO: Sample = (Base::Int, 0, &[2], &[]);

const ONES: Sample = (Base::Float, 1, &[1_000_000_000], &[]);

static ROWS: [Row; 10] = [
    Row {
        fixed: &[None, None, None],
        wired: &[false, false, false],
        fit: true,
    },
    Row {
        fixed: &[Some(ONE), None, Some(TWO)],
        wired: &[true, true, false],
        fit: true,
    },
    // An entry too few.
    Row {
        fixed: &[None, None],
        wired: &[false, false, false],
        fit: false,
    },
    Row {
        fixed: &[None, None, None],
        wired: &[false, false],
        fit: false,
    },
    // An entry too many.
    Row {
        fixed: &[None, None, None, None],
        wired: &[false, false, false],
        fit: false,
    },
    Row {
        fixed: &[None, None, None],
        wired: &[false, false, false, false],
        fit: false,
    },
    // An output is connected.
    Row {
        fixed: &[None, None, None],
        wired: &[false, false, true],
        fit: false,
    },
    // A value is of another type.
    Row {
        fixed: &[Some(TWO), None, None],
        wired: &[false, false, false],
        fit: false,
    },
    Row {
        fixed: &[Some(ONES), None, None],
        wired: &[false, false, false],
        fit: false,
    },
    Row {
        fixed: &[None, Some(ONE), None],
        wired: &[false, false, false],
        fit: false,
    },
];

/// A constant stands behind the parameters.
fn layer(alloc: Global) -> Result<Shader, Memory> {
    let float = Ty::only(Base::Float);
    let int = Ty::only(Base::Int);
    let mut symbols = Vec::new(alloc);
    symbols.push(symbol(alloc, Class::Param, "a", float, zero(alloc, float)?)?)?;
    symbols.push(symbol(alloc, Class::Param, "c", Ty::only(Base::Closure), None)?)?;
    symbols.push(symbol(alloc, Class::Oparam, "r", int, zero(alloc, int)?)?)?;
    symbols.push(symbol(alloc, Class::Const, "k", int, zero(alloc, int)?)?)?;
    let lines = [(OpName::Assign, [2, 3].as_slice(), [].as_slice())];
    let ops = ops(alloc, &lines)?;
    let sections = body(alloc, &ops)?;
    shader(alloc, symbols, sections, ops)
}

fn values(alloc: Global, samples: &[Option<Sample>]) -> Result<LayerValues, Memory> {
    let mut all = Vec::new(alloc);
    for sample in samples {
        let entry = match sample {
            Some(sample) => Some(value(alloc, sample)?),
            None => None,
        };
        all.push(entry)?;
    }
    Ok(LayerValues::new(all))
}

#[test]
fn inputs_fit_their_parameters(rt: HostRuntime) -> Result<(), Fail> {
    let alloc = rt.alloc();
    let shader = layer(alloc)?;
    for (k, row) in ROWS.iter().enumerate() {
        let fixed = values(alloc, row.fixed)?;
        assert_eq!(rt; inputs_fit(&shader, &fixed, row.wired), row.fit, "row {k}");
    }
    Ok(())
}
