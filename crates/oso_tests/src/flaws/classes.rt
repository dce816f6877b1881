//! Which symbols ops may write and read: globals by the shader's kind, and parameters by the section.

use super::{Named, flaw_of, named};
use crate::code::{Line, Part, body, code, op, ops, sections};
use osl_value::{Base, Memory, OpName, ShaderKind};
use oso_code::{Class, FlawKind, Raw, Symbol};
use std::alloc::Global;
use std::test::Fail;

static GLOBALS: [Named; 7] = [
    (Class::Global, Base::Point, 0, "P", None),
    (Class::Global, Base::Normal, 0, "N", None),
    (Class::Global, Base::Normal, 0, "Ng", None),
    (Class::Global, Base::Vector, 0, "I", None),
    (Class::Global, Base::Float, 0, "u", None),
    (Class::Global, Base::Float, 0, "v", None),
    (Class::Global, Base::Closure, 0, "Ci", None),
];

/// What holds the globals' values, one by one.
static LOCALS: [Named; 7] = [
    (Class::Local, Base::Point, 0, "p", None),
    (Class::Local, Base::Normal, 0, "n", None),
    (Class::Local, Base::Normal, 0, "ng", None),
    (Class::Local, Base::Vector, 0, "i", None),
    (Class::Local, Base::Float, 0, "x", None),
    (Class::Local, Base::Float, 0, "y", None),
    (Class::Local, Base::Closure, 0, "c", None),
];

static READS: [Line; 7] = [
    (OpName::Assign, &[7, 0], &[]),
    (OpName::Assign, &[8, 1], &[]),
    (OpName::Assign, &[9, 2], &[]),
    (OpName::Assign, &[10, 3], &[]),
    (OpName::Assign, &[11, 4], &[]),
    (OpName::Assign, &[12, 5], &[]),
    (OpName::Assign, &[13, 6], &[]),
];

/// The kinds of shaders, and which of the globals they may write.
static KIND_ROWS: [(ShaderKind, [bool; 7]); 4] = [
    (
        ShaderKind::Surface,
        [false, false, false, false, false, false, true],
    ),
    (
        ShaderKind::Displacement,
        [true, true, false, false, false, false, false],
    ),
    (
        ShaderKind::Volume,
        [false, false, false, false, false, false, true],
    ),
    (
        ShaderKind::Shader,
        [false, false, false, false, false, false, false],
    ),
];

fn all_named(alloc: Global, rows: &[Named]) -> Result<Vec<Symbol>, Memory> {
    let mut all = Vec::new(alloc);
    for row in rows {
        all.push(named(alloc, row)?)?;
    }
    Ok(all)
}

/// The code of a shader that reads each global, and then writes the one of a number.
fn written(alloc: Global, number: u32) -> Result<Raw, Memory> {
    let mut symbols = all_named(alloc, &GLOBALS)?;
    for local in &LOCALS {
        symbols.push(named(alloc, local)?)?;
    }
    let mut ops = ops(alloc, &READS)?;
    ops.push(op(alloc, OpName::Assign, &[number, number], &[])?)?;
    let body = body(alloc, &ops)?;
    code(alloc, b"one", symbols, body, ops)
}

#[test]
fn kinds_write_their_globals(rt: HostRuntime) -> Result<(), Fail> {
    let alloc = rt.alloc();
    for (kind, may) in &KIND_ROWS {
        for (number, may) in may.iter().enumerate() {
            let mut raw = written(alloc, number as u32)?;
            raw.kind = *kind;
            let (wrong, at) = flaw_of(alloc, raw)?;
            let flaw = if *may { None } else { Some(FlawKind::Op) };
            assert!(rt; wrong == flaw, "{kind:?}, global {number}");
            assert_eq!(rt; at, if *may { 0 } else { 7 }, "{kind:?}, global {number}");
        }
    }
    Ok(())
}

// The symbols: parameters, among them the outputs Q and R, a constant, and a variable.
const A: u32 = 0;

const Q: u32 = 1;

const B: u32 = 2;

const C: u32 = 3;

const R: u32 = 4;

const ZERO: u32 = 5;

const T: u32 = 6;

static SYMBOLS: [Named; 7] = [
    (Class::Param, Base::Float, 0, "a", Some(0)),
    (Class::Oparam, Base::Float, 1, "q", Some(0)),
    (Class::Param, Base::Float, 0, "b", Some(0)),
    (Class::Param, Base::Int, 0, "c", Some(0)),
    (Class::Oparam, Base::Float, 0, "r", Some(0)),
    (Class::Const, Base::Int, 0, "$0", Some(0)),
    (Class::Local, Base::Float, 0, "t", None),
];

/// Sections and ops over the symbols above, and the first op at fault.
struct OwnerRow {
    name: &'static str,
    sections: &'static [Part],
    ops: &'static [Line],
    at: Option<u32>,
}

static OWNER_ROWS: [OwnerRow; 20] = [
    OwnerRow {
        name: "a section reads an earlier parameter and its own",
        sections: &[(Some(B), 0, 1), (None, 1, 1)],
        ops: &[(OpName::Add, &[B, B, A], &[])],
        at: None,
    },
    OwnerRow {
        name: "a section reads a later parameter",
        sections: &[(Some(A), 0, 1), (None, 1, 1)],
        ops: &[(OpName::Assign, &[A, B], &[])],
        at: Some(0),
    },
    OwnerRow {
        name: "a section reads a later parameter into a variable",
        sections: &[(Some(A), 0, 2), (None, 2, 2)],
        ops: &[
            (OpName::Assign, &[A, ZERO], &[]),
            (OpName::Assign, &[T, B], &[]),
        ],
        at: Some(1),
    },
    OwnerRow {
        name: "the last operand is a later parameter",
        sections: &[(Some(A), 0, 1), (None, 1, 1)],
        ops: &[(OpName::Add, &[A, T, R], &[])],
        at: Some(0),
    },
    OwnerRow {
        name: "a section reads an element of a later output",
        sections: &[(Some(A), 0, 1), (None, 1, 1)],
        ops: &[(OpName::ARef, &[T, Q, ZERO], &[])],
        at: Some(0),
    },
    OwnerRow {
        name: "a section reads an element of an earlier output",
        sections: &[(Some(A), 0, 1), (Some(B), 1, 2), (None, 2, 2)],
        ops: &[
            (OpName::Assign, &[A, ZERO], &[]),
            (OpName::ARef, &[B, Q, ZERO], &[]),
        ],
        at: None,
    },
    OwnerRow {
        name: "a condition is a later parameter",
        sections: &[(Some(A), 0, 1), (None, 1, 1)],
        ops: &[(OpName::If, &[C], &[1, 1])],
        at: Some(0),
    },
    OwnerRow {
        name: "a condition is the section's parameter",
        sections: &[(Some(C), 0, 1), (None, 1, 1)],
        ops: &[(OpName::If, &[C], &[1, 1])],
        at: None,
    },
    // What is written in part is read too.
    OwnerRow {
        name: "an element of a later output is written",
        sections: &[(Some(A), 0, 1), (None, 1, 1)],
        ops: &[(OpName::AAssign, &[Q, ZERO, T], &[])],
        at: Some(0),
    },
    OwnerRow {
        name: "an element of an earlier output is written",
        sections: &[(Some(B), 0, 1), (None, 1, 1)],
        ops: &[(OpName::AAssign, &[Q, ZERO, T], &[])],
        at: None,
    },
    OwnerRow {
        name: "a later output is written whole",
        sections: &[(Some(A), 0, 1), (None, 1, 1)],
        ops: &[(OpName::Assign, &[R, T], &[])],
        at: None,
    },
    OwnerRow {
        name: "a variable comes behind all parameters",
        sections: &[(Some(A), 0, 1), (None, 1, 1)],
        ops: &[(OpName::Assign, &[A, T], &[])],
        at: None,
    },
    OwnerRow {
        name: "a section writes an earlier parameter",
        sections: &[(Some(B), 0, 1), (None, 1, 1)],
        ops: &[(OpName::Assign, &[A, T], &[])],
        at: Some(0),
    },
    OwnerRow {
        name: "a section writes a later parameter",
        sections: &[(Some(A), 0, 1), (None, 1, 1)],
        ops: &[(OpName::Assign, &[B, T], &[])],
        at: Some(0),
    },
    OwnerRow {
        name: "the next section writes the parameter",
        sections: &[(Some(A), 0, 1), (Some(B), 1, 2), (None, 2, 2)],
        ops: &[
            (OpName::Assign, &[A, T], &[]),
            (OpName::Assign, &[A, T], &[]),
        ],
        at: Some(1),
    },
    OwnerRow {
        name: "an op behind an empty section",
        sections: &[(Some(A), 0, 0), (Some(B), 0, 1), (None, 1, 1)],
        ops: &[(OpName::Assign, &[B, A], &[])],
        at: None,
    },
    // The body reads all parameters, and writes outputs alone.
    OwnerRow {
        name: "the body reads parameters",
        sections: &[(None, 0, 2)],
        ops: &[
            (OpName::Add, &[R, A, B], &[]),
            (OpName::ARef, &[R, Q, C], &[]),
        ],
        at: None,
    },
    OwnerRow {
        name: "the body writes a parameter",
        sections: &[(Some(A), 0, 1), (None, 1, 2)],
        ops: &[
            (OpName::Assign, &[A, T], &[]),
            (OpName::Assign, &[A, T], &[]),
        ],
        at: Some(1),
    },
    // An op's fault and a section's are of one kind: the lesser place counts.
    OwnerRow {
        name: "a section at fault before an op at fault",
        sections: &[(Some(B), 0, 1), (Some(A), 1, 2), (None, 2, 3)],
        ops: &[
            (OpName::Assign, &[B, A], &[]),
            (OpName::Assign, &[T, T], &[]),
            (OpName::Assign, &[ZERO, T], &[]),
        ],
        at: Some(1),
    },
    OwnerRow {
        name: "an op at fault before a section at fault",
        sections: &[(Some(B), 0, 1), (Some(A), 1, 2), (None, 2, 2)],
        ops: &[
            (OpName::Assign, &[ZERO, T], &[]),
            (OpName::Assign, &[T, T], &[]),
        ],
        at: Some(0),
    },
];

fn owner_flaw(alloc: Global, row: &OwnerRow) -> Result<(Option<FlawKind>, u32), Memory> {
    let symbols = all_named(alloc, &SYMBOLS)?;
    let sections = sections(alloc, row.sections)?;
    flaw_of(
        alloc,
        code(alloc, b"one", symbols, sections, ops(alloc, row.ops)?)?,
    )
}

#[test]
fn sections_read_and_write_so(rt: HostRuntime) -> Result<(), Fail> {
    let alloc = rt.alloc();
    for row in &OWNER_ROWS {
        let (wrong, at) = owner_flaw(alloc, row)?;
        match row.at {
            Some(place) => {
                assert!(rt; wrong == Some(FlawKind::Op), "{}", row.name);
                assert_eq!(rt; at, place, "{}", row.name);
            }
            None => assert!(rt; wrong.is_none(), "{}", row.name),
        }
    }
    Ok(())
}
