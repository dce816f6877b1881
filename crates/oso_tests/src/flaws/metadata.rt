//! Metadata: what a datum is, and where it stands.

use super::{INPUT, LONG, LONGER, Named, flaw_of, named, without_ops};
use crate::code::text;
use osl_value::{Base, Memory, Ty};
use oso_code::{Class, FlawKind, ListOf, Meta, Raw};
use std::alloc::Global;
use std::test::Fail;

/// A datum: its type and name, a number and how often it stands, a string and how often it stands, and whether it
/// fits.
type Datum = (
    Base,
    u32,
    &'static str,
    (i64, u32),
    (&'static str, u32),
    bool,
);

const NONE: (&str, u32) = ("", 0);

const LOCKED: Datum = (Base::Int, 0, "lockgeom", (0, 1), NONE, true);

const WRONG: Datum = (Base::Float, 0, "help", (0, 0), NONE, false);

static DATA: [Datum; 30] = [
    LOCKED,
    WRONG,
    // A number of the type for each component, and no string.
    (Base::Float, 0, "a", (5, 1), NONE, true),
    (Base::Float, 0, "a", (5, 2), NONE, false),
    (Base::Float, 0, "a", (5, 1), ("x", 1), false),
    (Base::Color, 0, "a", (5, 3), NONE, true),
    (Base::Color, 0, "a", (5, 1), NONE, false),
    (Base::Matrix, 0, "a", (5, 16), NONE, true),
    (Base::Matrix, 0, "a", (5, 15), NONE, false),
    (Base::Float, 2, "a", (5, 2), NONE, true),
    (Base::Float, 2, "a", (5, 1), NONE, false),
    (Base::Normal, 2, "a", (5, 6), NONE, true),
    // Strings alone.
    (Base::Str, 0, "a", (0, 0), ("x", 1), true),
    (Base::Str, 0, "a", (0, 0), NONE, false),
    (Base::Str, 0, "a", (0, 1), ("x", 1), false),
    (Base::Str, 2, "a", (0, 0), ("x", 2), true),
    // A closure has nothing, and there are no arrays of them.
    (Base::Closure, 0, "a", (0, 0), NONE, true),
    (Base::Closure, 0, "a", (0, 1), NONE, false),
    (Base::Closure, 2, "a", (0, 0), NONE, false),
    // The ends of the ranges of ints and of floats.
    (Base::Int, 0, "a", (2147483647, 1), NONE, true),
    (Base::Int, 0, "a", (2147483648, 1), NONE, false),
    (Base::Int, 0, "a", (-2147483648, 1), NONE, true),
    (Base::Int, 0, "a", (-2147483649, 1), NONE, false),
    (Base::Float, 0, "a", (-9223372036854775807, 1), NONE, true),
    (Base::Float, 0, "a", (i64::MIN, 1), NONE, false),
    // The longest array.
    (Base::Int, 1024, "a", (5, 1024), NONE, true),
    (Base::Int, 1025, "a", (5, 1025), NONE, false),
    // Names.
    (Base::Int, 0, LONG, (5, 1), NONE, true),
    (Base::Int, 0, LONGER, (5, 1), NONE, false),
    (Base::Int, 0, "1a", (5, 1), NONE, false),
];

fn datum(alloc: Global, row: &Datum) -> Result<Meta, Memory> {
    let (base, len, name, (number, numbers), (string, strings), _fits) = *row;
    let mut nums = Vec::new(alloc);
    for _i in 0..numbers {
        nums.push(number)?;
    }
    let mut texts = Vec::new(alloc);
    for _i in 0..strings {
        texts.push(ListOf::new(string.as_bytes().to_vec(alloc)?))?;
    }
    Ok(Meta {
        ty: Ty { base, len },
        name: text(alloc, name.as_bytes())?,
        nums: ListOf::new(nums),
        texts: ListOf::new(texts),
    })
}

fn data(alloc: Global, rows: &[Datum]) -> Result<ListOf<Meta>, Memory> {
    let mut metas = Vec::new(alloc);
    for row in rows {
        metas.push(datum(alloc, row)?)?;
    }
    Ok(ListOf::new(metas))
}

/// Code of two symbols without ops, of which the second has these data.
fn raw_with(alloc: Global, symbol: &Named, rows: &[Datum]) -> Result<Raw, Memory> {
    let mut second = named(alloc, symbol)?;
    second.metas = data(alloc, rows)?;
    let symbols = vec![in alloc; named(alloc, &INPUT)?, second]?;
    without_ops(alloc, b"one", symbols)
}

#[test]
fn data_fit_their_types(rt: HostRuntime) -> Result<(), Fail> {
    let alloc = rt.alloc();
    let output = (Class::Oparam, Base::Float, 0, "r", Some(0));
    for (k, row) in DATA.iter().enumerate() {
        let flaw = if row.5 { None } else { Some(FlawKind::Symbol) };
        // Of a parameter.
        let raw = raw_with(alloc, &output, &[LOCKED, *row])?;
        let (wrong, at) = flaw_of(alloc, raw)?;
        assert!(rt; wrong == flaw, "row {k}");
        assert_eq!(rt; at, if row.5 { 0 } else { 1 }, "row {k}");
        // Of the shader, which has the fault at symbol 0.
        let mut raw = raw_with(alloc, &output, &[])?;
        raw.metas = data(alloc, &[LOCKED, *row])?;
        let (wrong, at) = flaw_of(alloc, raw)?;
        assert!(rt; wrong == flaw, "row {k}");
        assert_eq!(rt; at, 0, "row {k}");
    }
    Ok(())
}

/// Symbols, and whether data may stand on them.
static SYMBOLS: [(Named, bool); 6] = [
    ((Class::Param, Base::Float, 0, "b", Some(0)), true),
    ((Class::Oparam, Base::Float, 0, "b", Some(0)), true),
    ((Class::Global, Base::Float, 0, "u", None), false),
    ((Class::Const, Base::Float, 0, "$0", Some(0)), false),
    ((Class::Local, Base::Float, 0, "b", None), false),
    ((Class::Temp, Base::Float, 0, "b", None), false),
];

#[test]
fn data_stand_on_parameters(rt: HostRuntime) -> Result<(), Fail> {
    let alloc = rt.alloc();
    for (k, (symbol, may)) in SYMBOLS.iter().enumerate() {
        let (wrong, _at) = flaw_of(alloc, raw_with(alloc, symbol, &[])?)?;
        assert!(rt; wrong.is_none(), "row {k}");
        let (wrong, at) = flaw_of(alloc, raw_with(alloc, symbol, &[LOCKED])?)?;
        let flaw = if *may { None } else { Some(FlawKind::Symbol) };
        assert!(rt; wrong == flaw, "row {k}");
        assert_eq!(rt; at, if *may { 0 } else { 1 }, "row {k}");
    }
    Ok(())
}

#[test]
fn a_string_in_metadata_may_be_long(rt: HostRuntime) -> Result<(), Fail> {
    let alloc = rt.alloc();
    let mut bytes = Vec::new(alloc);
    for _i in 0..600u32 {
        bytes.push(b'x')?;
    }
    let mut meta = datum(alloc, &(Base::Str, 0, "a", (0, 0), NONE, true))?;
    meta.texts = ListOf::new(vec![in alloc; ListOf::new(bytes)]?);
    let mut raw = raw_with(alloc, &INPUT, &[])?;
    raw.symbols = ListOf::new(vec![in alloc; named(alloc, &INPUT)?]?);
    raw.metas = ListOf::new(vec![in alloc; meta]?);
    let (wrong, _at) = flaw_of(alloc, raw)?;
    assert!(rt; wrong.is_none());
    Ok(())
}

#[test]
fn symbols_come_before_ops(rt: HostRuntime) -> Result<(), Fail> {
    let alloc = rt.alloc();
    // Without sections, which is a fault of ops at 0.
    let output = (Class::Oparam, Base::Float, 0, "r", Some(0));
    let mut raw = raw_with(alloc, &output, &[])?;
    raw.sections = ListOf::new(Vec::new(alloc));
    let (wrong, at) = flaw_of(alloc, raw)?;
    assert!(rt; wrong == Some(FlawKind::Op));
    assert_eq!(rt; at, 0);
    let mut raw = raw_with(alloc, &output, &[WRONG])?;
    raw.sections = ListOf::new(Vec::new(alloc));
    let (wrong, at) = flaw_of(alloc, raw)?;
    assert!(rt; wrong == Some(FlawKind::Symbol));
    assert_eq!(rt; at, 1);
    Ok(())
}
