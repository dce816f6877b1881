//! Code in tables, and its first flaw. What is expected follows from the rules of oso text (docs/CODE.md).

mod classes;
mod metadata;
mod owners;
mod ranges;
mod types;

use crate::code::{Line, Part, body, code, numbered, op, ops, sections, symbol, text};
use osl_value::{Base, Memory, OpName, Ty, Value};
use oso_code::{Class, CodeError, FlawKind, ListOf, Op, Raw, Symbol, validate};
use std::alloc::Global;
use std::test::Fail;

/// Ops over the symbols of `code_of`, and their first flaw.
struct Row {
    lines: &'static [Line],
    wrong: Option<FlawKind>,
    at: u32,
}

static ROWS: [Row; 10] = [
    Row {
        lines: &[(OpName::Assign, &[1, 0], &[])],
        wrong: None,
        at: 0,
    },
    // A jump passes its section.
    Row {
        lines: &[(OpName::If, &[3], &[1, 2])],
        wrong: Some(FlawKind::Jump),
        at: 0,
    },
    // A constant is written.
    Row {
        lines: &[(OpName::Assign, &[2, 3], &[])],
        wrong: Some(FlawKind::Op),
        at: 0,
    },
    // A parameter is written outside of its section.
    Row {
        lines: &[
            (OpName::Assign, &[1, 0], &[]),
            (OpName::Assign, &[0, 1], &[]),
        ],
        wrong: Some(FlawKind::Op),
        at: 1,
    },
    // There is no such symbol.
    Row {
        lines: &[(OpName::Assign, &[1, 4], &[])],
        wrong: Some(FlawKind::Op),
        at: 0,
    },
    // A condition is no int.
    Row {
        lines: &[(OpName::While, &[0], &[1, 1])],
        wrong: Some(FlawKind::Op),
        at: 0,
    },
    // A `for` has three ranges.
    Row {
        lines: &[(OpName::For, &[3], &[1, 1])],
        wrong: Some(FlawKind::Op),
        at: 0,
    },
    // A `break` stands in an `if` alone.
    Row {
        lines: &[(OpName::If, &[3], &[2, 2]), (OpName::Break, &[], &[])],
        wrong: Some(FlawKind::Jump),
        at: 1,
    },
    // A `break` stands in an `if` in a loop.
    Row {
        lines: &[
            (OpName::While, &[3], &[1, 3]),
            (OpName::If, &[3], &[3, 3]),
            (OpName::Break, &[], &[]),
        ],
        wrong: None,
        at: 0,
    },
    // A fault of an op comes before one of a jump, wherever they are.
    Row {
        lines: &[(OpName::Break, &[], &[]), (OpName::Assign, &[2, 3], &[])],
        wrong: Some(FlawKind::Op),
        at: 1,
    },
];

/// A symbol: its class, its type, its name, and its number if it has a value.
type Named = (Class, Base, u32, &'static str, Option<i64>);

/// Symbols, and their first flaw.
struct SymbolRow {
    symbols: &'static [Named],
    wrong: Option<FlawKind>,
    at: u32,
}

const INPUT: Named = (Class::Param, Base::Float, 0, "a", Some(0));

const LONG: &str =
    "abcdefghijklmnopqrstuvwxyzabcdefghijklmnopqrstuvwxyzabcdefghijklmnopqrstuvwxyzabcdefghijklmnopqrstuvwxyzabcdefghijklmnopqrstuvwxyzabcdefghijklmnopqrstuvwxyzabcdefghijklmnopqrstuvwxyzabcdefghijklmnopqrstuvwxyzabcdefghijklmnopqrstuvwxyzabcdefghijklmnopqrstu";

const LONGER: &str =
    "abcdefghijklmnopqrstuvwxyzabcdefghijklmnopqrstuvwxyzabcdefghijklmnopqrstuvwxyzabcdefghijklmnopqrstuvwxyzabcdefghijklmnopqrstuvwxyzabcdefghijklmnopqrstuvwxyzabcdefghijklmnopqrstuvwxyzabcdefghijklmnopqrstuvwxyzabcdefghijklmnopqrstuvwxyzabcdefghijklmnopqrstuv";

static SYMBOL_ROWS: [SymbolRow; 22] = [
    SymbolRow {
        symbols: &[],
        wrong: None,
        at: 0,
    },
    SymbolRow {
        symbols: &[INPUT, (Class::Local, Base::Closure, 0, "$c.1_", None)],
        wrong: None,
        at: 0,
    },
    // Names: of 255 and of 256 bytes, none, and one that begins with a digit.
    SymbolRow {
        symbols: &[INPUT, (Class::Local, Base::Int, 0, LONG, None)],
        wrong: None,
        at: 0,
    },
    SymbolRow {
        symbols: &[INPUT, (Class::Local, Base::Int, 0, LONGER, None)],
        wrong: Some(FlawKind::Symbol),
        at: 1,
    },
    SymbolRow {
        symbols: &[INPUT, (Class::Local, Base::Int, 0, "", None)],
        wrong: Some(FlawKind::Symbol),
        at: 1,
    },
    SymbolRow {
        symbols: &[INPUT, (Class::Local, Base::Int, 0, "1a", None)],
        wrong: Some(FlawKind::Symbol),
        at: 1,
    },
    // Two of one name: the later is at fault.
    SymbolRow {
        symbols: &[
            INPUT,
            (Class::Local, Base::Int, 0, "b", None),
            (Class::Local, Base::Int, 0, "a", None),
        ],
        wrong: Some(FlawKind::Symbol),
        at: 2,
    },
    // A parameter behind another symbol, and one with the name of the body.
    SymbolRow {
        symbols: &[
            INPUT,
            (Class::Local, Base::Int, 0, "b", None),
            (Class::Oparam, Base::Int, 0, "r", Some(0)),
        ],
        wrong: Some(FlawKind::Symbol),
        at: 2,
    },
    SymbolRow {
        symbols: &[(Class::Param, Base::Int, 0, "___main___", Some(0))],
        wrong: Some(FlawKind::Symbol),
        at: 0,
    },
    SymbolRow {
        symbols: &[(Class::Local, Base::Int, 0, "___main___", None)],
        wrong: None,
        at: 0,
    },
    // Globals: with their types, with another type, with another name, and with a value.
    SymbolRow {
        symbols: &[
            (Class::Global, Base::Normal, 0, "N", None),
            (Class::Global, Base::Float, 0, "u", None),
        ],
        wrong: None,
        at: 0,
    },
    SymbolRow {
        symbols: &[INPUT, (Class::Global, Base::Vector, 0, "N", None)],
        wrong: Some(FlawKind::Symbol),
        at: 1,
    },
    SymbolRow {
        symbols: &[INPUT, (Class::Global, Base::Float, 0, "w", None)],
        wrong: Some(FlawKind::Symbol),
        at: 1,
    },
    SymbolRow {
        symbols: &[INPUT, (Class::Global, Base::Float, 0, "u", Some(0))],
        wrong: Some(FlawKind::Symbol),
        at: 1,
    },
    // Values: a constant without one, a variable with one, and a parameter without one.
    SymbolRow {
        symbols: &[INPUT, (Class::Const, Base::Int, 0, "$0", None)],
        wrong: Some(FlawKind::Symbol),
        at: 1,
    },
    SymbolRow {
        symbols: &[INPUT, (Class::Temp, Base::Int, 0, "t", Some(0))],
        wrong: Some(FlawKind::Symbol),
        at: 1,
    },
    SymbolRow {
        symbols: &[INPUT, (Class::Oparam, Base::Int, 0, "r", None)],
        wrong: Some(FlawKind::Symbol),
        at: 1,
    },
    // Closures: a parameter has no value, a constant is none, and there are no arrays of them.
    SymbolRow {
        symbols: &[(Class::Param, Base::Closure, 0, "c", None)],
        wrong: None,
        at: 0,
    },
    SymbolRow {
        symbols: &[INPUT, (Class::Const, Base::Closure, 0, "$c", None)],
        wrong: Some(FlawKind::Symbol),
        at: 1,
    },
    SymbolRow {
        symbols: &[INPUT, (Class::Local, Base::Closure, 2, "c", None)],
        wrong: Some(FlawKind::Symbol),
        at: 1,
    },
    // Arrays: of 1,024 elements and of 1,025.
    SymbolRow {
        symbols: &[INPUT, (Class::Local, Base::Float, 1024, "b", None)],
        wrong: None,
        at: 0,
    },
    SymbolRow {
        symbols: &[INPUT, (Class::Local, Base::Float, 1025, "b", None)],
        wrong: Some(FlawKind::Symbol),
        at: 1,
    },
];

/// Sections over four ops, and the place of their first flaw, where they have one.
struct SectionRow {
    sections: &'static [Part],
    at: Option<u32>,
}

// The parameters are 0, 1 and 2, the value of 2 is not zero, and 3 is a constant.
static SECTION_ROWS: [SectionRow; 27] = [
    SectionRow {
        sections: &[(None, 0, 4)],
        at: None,
    },
    SectionRow {
        sections: &[(Some(0), 0, 1), (Some(1), 1, 1), (None, 1, 4)],
        at: None,
    },
    // There is none.
    SectionRow {
        sections: &[],
        at: Some(0),
    },
    // The first begins behind the first op.
    SectionRow {
        sections: &[(None, 1, 4)],
        at: Some(1),
    },
    // One begins behind the end of the one before it, or before it.
    SectionRow {
        sections: &[(Some(0), 0, 1), (None, 2, 4)],
        at: Some(2),
    },
    SectionRow {
        sections: &[(Some(0), 0, 3), (None, 2, 4)],
        at: Some(2),
    },
    // The last ends before the ops do, or behind them.
    SectionRow {
        sections: &[(None, 0, 3)],
        at: Some(3),
    },
    SectionRow {
        sections: &[(Some(0), 0, 2), (None, 2, 5)],
        at: Some(2),
    },
    // The last is a parameter's.
    SectionRow {
        sections: &[(Some(0), 0, 4)],
        at: Some(4),
    },
    // One stands behind the body.
    SectionRow {
        sections: &[(None, 0, 2), (Some(0), 2, 3), (None, 3, 4)],
        at: Some(2),
    },
    // Parameters stand in another order, or twice.
    SectionRow {
        sections: &[(Some(1), 0, 1), (Some(0), 1, 2), (None, 2, 4)],
        at: Some(1),
    },
    SectionRow {
        sections: &[(Some(0), 0, 1), (Some(0), 1, 2), (None, 2, 4)],
        at: Some(1),
    },
    // The parameter has a value, or is none.
    SectionRow {
        sections: &[(Some(2), 0, 1), (None, 1, 4)],
        at: Some(0),
    },
    SectionRow {
        sections: &[(Some(3), 0, 1), (None, 1, 4)],
        at: Some(0),
    },
    SectionRow {
        sections: &[(Some(1), 0, 1), (Some(3), 1, 2), (None, 2, 4)],
        at: Some(1),
    },
    // There is no such symbol.
    SectionRow {
        sections: &[(Some(4), 0, 1), (None, 1, 4)],
        at: Some(0),
    },
    SectionRow {
        sections: &[(Some(0), 0, 1), (Some(u32::MAX), 1, 2), (None, 2, 4)],
        at: Some(1),
    },
    // Parameters have all ops, or none.
    SectionRow {
        sections: &[(Some(0), 0, 4), (None, 4, 4)],
        at: None,
    },
    SectionRow {
        sections: &[(Some(0), 0, 0), (Some(1), 0, 0), (None, 0, 4)],
        at: None,
    },
    // One ends before it begins; of the body, its end is at fault too.
    SectionRow {
        sections: &[(Some(0), 0, 2), (Some(1), 2, 1), (None, 1, 4)],
        at: Some(2),
    },
    SectionRow {
        sections: &[(Some(0), 0, 4), (None, 4, 3)],
        at: Some(3),
    },
    // A parameter's ends behind the ops.
    SectionRow {
        sections: &[(Some(0), 0, 5), (None, 5, 5)],
        at: Some(0),
    },
    // One stands again behind another, and the body twice.
    SectionRow {
        sections: &[
            (Some(0), 0, 1),
            (Some(1), 1, 2),
            (Some(0), 2, 3),
            (None, 3, 4),
        ],
        at: Some(2),
    },
    SectionRow {
        sections: &[(None, 0, 2), (None, 2, 4)],
        at: Some(2),
    },
    SectionRow {
        sections: &[(None, 0, 4), (None, 4, 4)],
        at: Some(4),
    },
    // Of two faults the lesser place counts, whichever section comes first.
    SectionRow {
        sections: &[(Some(1), 0, 1), (Some(0), 1, 3), (None, 2, 4)],
        at: Some(1),
    },
    SectionRow {
        sections: &[
            (Some(0), 0, 3),
            (Some(1), 3, 1),
            (Some(0), 1, 2),
            (None, 2, 4),
        ],
        at: Some(1),
    },
];

/// A shader with an input 0, an output 1, and the constants 0 and 1 as 2 and 3.
fn code_of(alloc: Global, ops: Vec<Op>) -> Result<Raw, Memory> {
    let symbols = vec![in alloc;
        numbered(alloc, Class::Param, Base::Float, "a", 0)?,
        numbered(alloc, Class::Oparam, Base::Float, "r", 0)?,
        numbered(alloc, Class::Const, Base::Int, "$0", 0)?,
        numbered(alloc, Class::Const, Base::Int, "$1", 1)?,
    ]?;
    let body = body(alloc, &ops)?;
    code(alloc, b"one", symbols, body, ops)
}

/// The first flaw, with 0 where there is none.
fn flaw_of(alloc: Global, raw: Raw) -> Result<(Option<FlawKind>, u32), Memory> {
    if raw.symbols.len() > 100_000 || raw.ops.len() > 100_000 {
        return Err(Memory);
    }
    match validate(alloc, raw) {
        Ok(_shader) => Ok((None, 0)),
        Err((_raw, error)) => match error {
            CodeError::Flaw { kind, at } => Ok((Some(kind), at)),
            CodeError::Memory => Err(Memory),
        },
    }
}

#[test]
fn flaws_have_their_places(rt: HostRuntime) -> Result<(), Fail> {
    let alloc = rt.alloc();
    for row in &ROWS {
        let (wrong, at) = flaw_of(alloc, code_of(alloc, ops(alloc, row.lines)?)?)?;
        assert!(rt; wrong == row.wrong);
        assert_eq!(rt; at, row.at);
    }
    Ok(())
}

/// So many calls, each in the one before it.
fn nested(alloc: Global, count: u32) -> Result<Vec<Op>, Memory> {
    let mut ops = Vec::new(alloc);
    for _i in 0..count {
        ops.push(op(alloc, OpName::FunctionCall, &[], &[count])?)?;
    }
    Ok(ops)
}

#[test]
fn ranges_nest_so_deep(rt: HostRuntime) -> Result<(), Fail> {
    let alloc = rt.alloc();
    let (wrong, _at) = flaw_of(alloc, code_of(alloc, nested(alloc, 4608)?)?)?;
    assert!(rt; wrong.is_none());
    let (wrong, at) = flaw_of(alloc, code_of(alloc, nested(alloc, 4609)?)?)?;
    assert!(rt; wrong == Some(FlawKind::Limit));
    assert_eq!(rt; at, 0);
    Ok(())
}

#[test]
fn a_copy_is_valid_too(rt: HostRuntime) -> Result<(), Fail> {
    let alloc = rt.alloc();
    let raw = code_of(alloc, Vec::new(alloc))?;
    assert!(rt; raw.symbols.len() < 10 && raw.ops.len() < 10);
    match validate(alloc, raw) {
        Ok(shader) => {
            let copy = shader.copy(alloc)?;
            assert_eq!(rt; copy.raw().symbols.len(), 4);
            assert_eq!(rt; copy.raw().name.bytes(), b"one".as_slice());
        }
        Err(_refused) => assert!(rt; false),
    }
    Ok(())
}

/// A symbol, with its number if it has one.
fn named(alloc: Global, row: &Named) -> Result<Symbol, Memory> {
    let (class, base, len, name, number) = *row;
    let ty = Ty { base, len };
    let value = match number {
        Some(n) => {
            let nums = vec![in alloc; n]?;
            Value::new(ty, nums, Vec::new(alloc))
        }
        None => None,
    };
    symbol(alloc, class, name, ty, value)
}

/// Code of these symbols without ops.
fn without_ops(alloc: Global, name: &[u8], symbols: Vec<Symbol>) -> Result<Raw, Memory> {
    code(alloc, name, symbols, body(alloc, &[])?, Vec::new(alloc))
}

fn symbols_flaw(alloc: Global, row: &SymbolRow) -> Result<(Option<FlawKind>, u32), Memory> {
    let mut symbols = Vec::new(alloc);
    for symbol in row.symbols {
        symbols.push(named(alloc, symbol)?)?;
    }
    flaw_of(alloc, without_ops(alloc, b"one", symbols)?)
}

#[test]
fn flaws_of_symbols_have_their_places(rt: HostRuntime) -> Result<(), Fail> {
    let alloc = rt.alloc();
    for (k, row) in SYMBOL_ROWS.iter().enumerate() {
        let (wrong, at) = symbols_flaw(alloc, row)?;
        assert!(rt; wrong == row.wrong, "row {k}");
        assert_eq!(rt; at, row.at, "row {k}");
    }
    Ok(())
}

#[test]
fn a_shader_has_a_name(rt: HostRuntime) -> Result<(), Fail> {
    let alloc = rt.alloc();
    let (wrong, at) = flaw_of(alloc, without_ops(alloc, b"1", Vec::new(alloc))?)?;
    assert!(rt; wrong == Some(FlawKind::Symbol));
    assert_eq!(rt; at, 0);
    Ok(())
}

/// So many ops that leave the layer.
fn returns(alloc: Global, count: u32) -> Result<Vec<Op>, Memory> {
    let mut ops = Vec::new(alloc);
    for _i in 0..count {
        ops.push(op(alloc, OpName::Return, &[], &[])?)?;
    }
    Ok(ops)
}

/// The first flaw of sections, over four ops.
fn sections_flaw(alloc: Global, row: &SectionRow) -> Result<(Option<FlawKind>, u32), Memory> {
    let symbols = vec![in alloc;
        numbered(alloc, Class::Param, Base::Float, "a", 0)?,
        numbered(alloc, Class::Param, Base::Float, "b", 0)?,
        numbered(alloc, Class::Oparam, Base::Float, "r", 1)?,
        numbered(alloc, Class::Const, Base::Int, "$0", 0)?,
    ]?;
    let sections = sections(alloc, row.sections)?;
    flaw_of(
        alloc,
        code(alloc, b"one", symbols, sections, returns(alloc, 4)?)?,
    )
}

#[test]
fn flaws_of_sections_have_their_places(rt: HostRuntime) -> Result<(), Fail> {
    let alloc = rt.alloc();
    for (k, row) in SECTION_ROWS.iter().enumerate() {
        let (wrong, at) = sections_flaw(alloc, row)?;
        match row.at {
            Some(place) => {
                assert!(rt; wrong == Some(FlawKind::Op), "row {k}");
                assert_eq!(rt; at, place, "row {k}");
            }
            None => assert!(rt; wrong.is_none(), "row {k}"),
        }
    }
    Ok(())
}

/// So many variables, at most 256, each an array of so many floats.
fn arrays(alloc: Global, count: u32, len: u32) -> Result<Vec<Symbol>, Memory> {
    let mut symbols = Vec::new(alloc);
    for k in 0..count {
        let mut name = Vec::new(alloc);
        name.push(b'v')?;
        for bit in 0..8u32 {
            name.push(if k >> bit & 1 == 0 { b'0' } else { b'1' })?;
        }
        symbols.push(Symbol {
            class: Class::Local,
            ty: Ty {
                base: Base::Float,
                len,
            },
            name: text(alloc, name.as_slice())?,
            value: None,
            metas: ListOf::new(Vec::new(alloc)),
        })?;
    }
    Ok(symbols)
}

/// Arrays of 1,024 floats, and ops, and whether they pass a limit.
static LIMIT_ROWS: [(u32, u32, bool); 4] = [
    (64, 0, false),
    (65, 0, true),
    (0, 65536, false),
    (0, 65537, true),
];

#[test]
fn limits_are_passed_by_one(rt: HostRuntime) -> Result<(), Fail> {
    let alloc = rt.alloc();
    for &(count, ops, passes) in &LIMIT_ROWS {
        let symbols = arrays(alloc, count, 1024)?;
        let returns = returns(alloc, ops)?;
        let body = body(alloc, &returns)?;
        let (wrong, at) = flaw_of(alloc, code(alloc, b"one", symbols, body, returns)?)?;
        let limit = if passes { Some(FlawKind::Limit) } else { None };
        assert!(rt; wrong == limit, "{count} arrays, {ops} ops");
        assert_eq!(rt; at, 0);
    }
    Ok(())
}
