//! Operations on closures, the closure of a layer, and a closure that one layer gives to another.

use super::{Layer, ended, output};
use crate::code::{Line, Sample, body, op, ops, shader, symbol, value};
use bumpalo::Bump;
use osl_closure::{Node, flatten};
use osl_interp::{Given, OutRef};
use osl_value::{Base, Fx, LayerValues, Memory, OpName, Part, Primitive, Ty, Value};
use oso_code::{Class, Op, Shader, Symbol};
use std::alloc::Global;
use std::test::Fail;

/// A part: its weights in thousandths, its primitive, the primitive's normal and number, and its string.
type Piece = ([i64; 3], Primitive, [i64; 3], i64, &'static str);

/// Ops, and the parts of the closure that they give.
struct Row {
    lines: &'static [Line],
    parts: &'static [Piece],
}

// The symbols: the parameter c, the output r, the global Ci, constants, and a variable.
const C: u32 = 0;

const R: u32 = 1;

const CI: u32 = 2;

const NORMAL: u32 = 3;

const HALF: u32 = 4;

const WORD: u32 = 5;

const TINT: u32 = 6;

const TWO: u32 = 7;

const T: u32 = 8;

const ONE: [i64; 3] = [1000, 1000, 1000];

const NONE: [i64; 3] = [0, 0, 0];

const AHEAD: [i64; 3] = [0, 600, 800];

static ROWS: [Row; 17] = [
    Row {
        lines: &[(OpName::ClEmission, &[R], &[]), (OpName::Empty, &[R], &[])],
        parts: &[],
    },
    Row {
        lines: &[(OpName::ClEmission, &[R], &[])],
        parts: &[(ONE, Primitive::Emission, NONE, 0, "")],
    },
    Row {
        lines: &[(OpName::ClBackground, &[R], &[])],
        parts: &[(ONE, Primitive::Background, NONE, 0, "")],
    },
    Row {
        lines: &[(OpName::ClHoldout, &[R], &[])],
        parts: &[(ONE, Primitive::Holdout, NONE, 0, "")],
    },
    Row {
        lines: &[(OpName::ClTransparent, &[R], &[])],
        parts: &[(ONE, Primitive::Transparent, NONE, 0, "")],
    },
    Row {
        lines: &[(OpName::ClDiffuse, &[R, NORMAL], &[])],
        parts: &[(ONE, Primitive::Diffuse, AHEAD, 0, "")],
    },
    Row {
        lines: &[(OpName::ClTranslucent, &[R, NORMAL], &[])],
        parts: &[(ONE, Primitive::Translucent, AHEAD, 0, "")],
    },
    Row {
        lines: &[(OpName::ClOrenNayar, &[R, NORMAL, HALF], &[])],
        parts: &[(ONE, Primitive::OrenNayar, AHEAD, 500, "")],
    },
    Row {
        lines: &[(OpName::ClReflection, &[R, NORMAL, TWO], &[])],
        parts: &[(ONE, Primitive::Reflection, AHEAD, 2000, "")],
    },
    Row {
        lines: &[(OpName::ClRefraction, &[R, NORMAL, HALF], &[])],
        parts: &[(ONE, Primitive::Refraction, AHEAD, 500, "")],
    },
    Row {
        lines: &[(OpName::ClDebug, &[R, WORD], &[])],
        parts: &[(ONE, Primitive::Debug, NONE, 0, "tag")],
    },
    Row {
        lines: &[
            (OpName::ClEmission, &[T], &[]),
            (OpName::ClDiffuse, &[R, NORMAL], &[]),
            (OpName::Add, &[R, T, R], &[]),
            (OpName::Add, &[R, R, T], &[]),
        ],
        parts: &[
            (ONE, Primitive::Emission, NONE, 0, ""),
            (ONE, Primitive::Diffuse, AHEAD, 0, ""),
            (ONE, Primitive::Emission, NONE, 0, ""),
        ],
    },
    Row {
        lines: &[
            (OpName::ClHoldout, &[T], &[]),
            (OpName::Mul, &[R, HALF, T], &[]),
        ],
        parts: &[([500, 500, 500], Primitive::Holdout, NONE, 0, "")],
    },
    Row {
        lines: &[
            (OpName::ClHoldout, &[T], &[]),
            (OpName::Mul, &[T, T, TINT], &[]),
            (OpName::Mul, &[R, TWO, T], &[]),
        ],
        parts: &[([500, 1000, 4000], Primitive::Holdout, NONE, 0, "")],
    },
    Row {
        lines: &[
            (OpName::ClHoldout, &[T], &[]),
            (OpName::Assign, &[R, T], &[]),
        ],
        parts: &[(ONE, Primitive::Holdout, NONE, 0, "")],
    },
    // What another layer gave.
    Row {
        lines: &[(OpName::Assign, &[R, C], &[])],
        parts: &[([250, 500, 2000], Primitive::Transparent, NONE, 0, "")],
    },
    Row {
        lines: &[
            (OpName::ClEmission, &[T], &[]),
            (OpName::Add, &[R, T, C], &[]),
        ],
        parts: &[
            (ONE, Primitive::Emission, NONE, 0, ""),
            ([250, 500, 2000], Primitive::Transparent, NONE, 0, ""),
        ],
    },
];

static SYMBOLS: [(Class, &str, Sample); 9] = [
    (Class::Param, "c", (Base::Closure, 0, &[], &[])),
    (Class::Oparam, "r", (Base::Closure, 0, &[], &[])),
    (Class::Global, "Ci", (Base::Closure, 0, &[], &[])),
    (
        Class::Const,
        "$n",
        (Base::Normal, 0, &[0, 600_000_000, 800_000_000], &[]),
    ),
    (Class::Const, "$h", (Base::Float, 0, &[500_000_000], &[])),
    (Class::Const, "$w", (Base::Str, 0, &[], &["tag"])),
    (
        Class::Const,
        "$t",
        (
            Base::Color,
            0,
            &[250_000_000, 500_000_000, 2_000_000_000],
            &[],
        ),
    ),
    (Class::Const, "$2", (Base::Int, 0, &[2], &[])),
    (Class::Temp, "t", (Base::Closure, 0, &[], &[])),
];

/// The ops of the layer that gives a closure to the other.
static GIVER: [Line; 2] = [
    (OpName::ClTransparent, &[R], &[]),
    (OpName::Mul, &[R, TINT, R], &[]),
];

fn symbols(alloc: Global) -> Result<Vec<Symbol>, Memory> {
    let mut all = Vec::new(alloc);
    for row in &SYMBOLS {
        let (class, name, sample) = row;
        let (base, len, _nums, _texts) = *sample;
        let start = constant(alloc, *class, sample)?;
        all.push(symbol(alloc, *class, name, Ty { base, len }, start)?)?;
    }
    Ok(all)
}

fn constant(alloc: Global, class: Class, sample: &Sample) -> Result<Option<Value>, Memory> {
    match class {
        Class::Const => Ok(Some(value(alloc, sample)?)),
        _ => Ok(None),
    }
}

/// These ops, and one that makes the output the closure of the layer.
fn all_ops(alloc: Global, lines: &[Line]) -> Result<Vec<Op>, Memory> {
    let mut all = ops(alloc, lines)?;
    all.push(op(alloc, OpName::Assign, &[CI, R], &[])?)?;
    Ok(all)
}

fn layer(alloc: Global, lines: &[Line]) -> Result<Shader, Memory> {
    let ops = all_ops(alloc, lines)?;
    let sections = body(alloc, &ops)?;
    shader(alloc, symbols(alloc)?, sections, ops)
}

/// No instance values, for the two parameters.
fn defaults(alloc: Global) -> Result<LayerValues, Memory> {
    let mut all = Vec::new(alloc);
    all.push(None)?;
    all.push(None)?;
    Ok(LayerValues::new(all))
}

/// The closures that a layer gives as its output and as its own, where the parameter that it asks for is given this.
fn closures<'a>(
    alloc: Global,
    arena: &'a Bump,
    layer: &Layer<'a>,
    given: Given<'_, 'a>,
) -> Result<Option<(Node<'a>, Node<'a>)>, Memory> {
    let mut asked = Vec::new(alloc);
    let entries = [given];
    let Some(run) = ended(alloc, arena, layer, &entries, &mut asked)? else {
        return Ok(None);
    };
    let own = run.ci();
    match output(&run, R) {
        Some(OutRef::Closure(node)) => Ok(Some((node, own))),
        _ => Ok(None),
    }
}

fn are(floats: [Fx; 3], thousandths: [i64; 3]) -> bool {
    floats.map(Fx::units) == thousandths.map(|n| n.wrapping_mul(1_000_000))
}

fn is_piece(part: &Part, piece: &Piece) -> bool {
    let (weight, prim, normal, number, text) = *piece;
    part.prim == prim
        && are(part.weight, weight)
        && are(part.normal, normal)
        && part.number.units() == number.wrapping_mul(1_000_000)
        && part.text.bytes() == text.as_bytes()
}

fn has_parts(alloc: Global, node: Node<'_>, pieces: &[Piece]) -> Result<bool, Memory> {
    let parts = flatten(alloc, node)?;
    let parts = parts.as_slice();
    if parts.len() != pieces.len() {
        return Ok(false);
    }
    for (part, piece) in parts.iter().zip(pieces) {
        if !is_piece(part, piece) {
            return Ok(false);
        }
    }
    Ok(true)
}

/// The closure of the layer that gives one.
fn given<'a>(alloc: Global, arena: &'a Bump, giver: &Layer<'a>) -> Result<Node<'a>, Memory> {
    match closures(alloc, arena, giver, Given::Nothing)? {
        Some((node, _own)) => Ok(node),
        None => Err(Memory),
    }
}

/// Whether a layer, given another one's closure, gives the closure that it should.
fn gives<'a>(
    alloc: Global,
    arena: &'a Bump,
    giver: &Layer<'a>,
    taker: &Layer<'a>,
    parts: &[Piece],
) -> Result<bool, Memory> {
    let node = given(alloc, arena, giver)?;
    match closures(alloc, arena, taker, Given::Closure(node))? {
        Some((found, own)) => {
            let gives = has_parts(alloc, found, parts)?;
            let is_own = has_parts(alloc, own, parts)?;
            Ok(gives && is_own)
        }
        None => Ok(false),
    }
}

fn holds(alloc: Global, row: &Row) -> Result<bool, Memory> {
    let giver = layer(alloc, &GIVER)?;
    let taker = layer(alloc, row.lines)?;
    let fixed = defaults(alloc)?;
    let arena = Bump::new(alloc);
    let alone = Layer {
        shader: &giver,
        fixed: &fixed,
        wired: &[false, false],
        budget: 0,
    };
    let connected = Layer {
        shader: &taker,
        fixed: &fixed,
        wired: &[true, false],
        budget: 0,
    };
    gives(alloc, &arena, &alone, &connected, row.parts)
}

#[test]
fn closures_have_their_parts(rt: HostRuntime) -> Result<(), Fail> {
    let alloc = rt.alloc();
    for (k, row) in ROWS.iter().enumerate() {
        assert!(rt; holds(alloc, row)?, "row {k}");
    }
    Ok(())
}
