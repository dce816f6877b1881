//! Which symbols may have a section.

use super::{flaw_of, returns};
use crate::code::{Sample, code, numbered, sections, symbol, value};
use osl_value::{Base, Memory, Ty, Value};
use oso_code::{Class, FlawKind, Raw, Symbol};
use std::alloc::Global;
use std::test::Fail;

/// A symbol: its class, its name, and its type with the value that it has if its class and its type have one. The last
/// says whether it may have a section.
type Owner = (Class, &'static str, Sample, bool);

static OWNERS: [Owner; 28] = [
    // Parameters whose values are zeros, each number of them, and strings that are empty.
    (Class::Param, "b", (Base::Float, 0, &[0], &[]), true),
    (Class::Param, "b", (Base::Float, 0, &[1], &[]), false),
    (Class::Param, "b", (Base::Float, 0, &[-1], &[]), false),
    (Class::Param, "b", (Base::Int, 0, &[0], &[]), true),
    (Class::Param, "b", (Base::Int, 0, &[-7], &[]), false),
    (Class::Oparam, "b", (Base::Int, 0, &[0], &[]), true),
    (Class::Oparam, "b", (Base::Int, 0, &[7], &[]), false),
    (Class::Param, "b", (Base::Color, 0, &[0, 0, 0], &[]), true),
    (Class::Param, "b", (Base::Color, 0, &[1, 0, 0], &[]), false),
    (Class::Param, "b", (Base::Normal, 0, &[0, 0, 1], &[]), false),
    (Class::Param, "b", (Base::Int, 3, &[0, 0, 0], &[]), true),
    (Class::Param, "b", (Base::Int, 3, &[0, 0, 1], &[]), false),
    (Class::Oparam, "b", (Base::Float, 2, &[1, -1], &[]), false),
    (Class::Param, "b", (Base::Matrix, 0, ZEROS, &[]), true),
    (Class::Param, "b", (Base::Matrix, 0, UNIT, &[]), false),
    (Class::Oparam, "b", (Base::Matrix, 0, LAST, &[]), false),
    (Class::Param, "b", (Base::Str, 0, &[], &[""]), true),
    (Class::Param, "b", (Base::Str, 0, &[], &["0"]), false),
    (Class::Oparam, "b", (Base::Str, 2, &[], &["", ""]), true),
    (Class::Oparam, "b", (Base::Str, 2, &[], &["", " "]), false),
    // Closures, which have no value.
    (Class::Param, "b", (Base::Closure, 0, &[], &[]), true),
    (Class::Oparam, "b", (Base::Closure, 0, &[], &[]), true),
    // Symbols that are no parameters.
    (Class::Const, "b", (Base::Int, 0, &[0], &[]), false),
    (Class::Const, "b", (Base::Str, 0, &[], &[""]), false),
    (Class::Global, "N", (Base::Normal, 0, &[], &[]), false),
    (Class::Global, "Ci", (Base::Closure, 0, &[], &[]), false),
    (Class::Local, "b", (Base::Float, 0, &[], &[]), false),
    (Class::Temp, "b", (Base::Float, 0, &[], &[]), false),
];

const ZEROS: &[i64] = &[0, 0, 0, 0, 0, 0, 0, 0, 0, 0, 0, 0, 0, 0, 0, 0];

const UNIT: &[i64] = &[1, 0, 0, 0, 0, 1, 0, 0, 0, 0, 1, 0, 0, 0, 0, 1];

const LAST: &[i64] = &[0, 0, 0, 0, 0, 0, 0, 0, 0, 0, 0, 0, 0, 0, 0, 1];

fn start(alloc: Global, class: Class, sample: &Sample) -> Result<Option<Value>, Memory> {
    let (base, _len, _nums, _texts) = *sample;
    match (class, base) {
        (_, Base::Closure) => Ok(None),
        (Class::Global | Class::Local | Class::Temp, _) => Ok(None),
        _ => Ok(Some(value(alloc, sample)?)),
    }
}

fn owner(alloc: Global, row: &Owner) -> Result<Symbol, Memory> {
    let (class, name, sample, _may) = *row;
    let (base, len, _nums, _texts) = sample;
    let start = start(alloc, class, &sample)?;
    symbol(alloc, class, name, Ty { base, len }, start)
}

/// Code in which the first parameter has a section, and then this symbol.
fn owned(alloc: Global, row: &Owner) -> Result<Raw, Memory> {
    let symbols = vec![in alloc;
        numbered(alloc, Class::Param, Base::Float, "a", 0)?,
        owner(alloc, row)?,
    ]?;
    let sections = sections(alloc, &[(Some(0), 0, 1), (Some(1), 1, 2), (None, 2, 3)])?;
    code(alloc, b"one", symbols, sections, returns(alloc, 3)?)
}

#[test]
fn parameters_of_zeros_may_have_sections(rt: HostRuntime) -> Result<(), Fail> {
    let alloc = rt.alloc();
    for (k, row) in OWNERS.iter().enumerate() {
        let may = row.3;
        let (wrong, at) = flaw_of(alloc, owned(alloc, row)?)?;
        let flaw = if may { None } else { Some(FlawKind::Op) };
        assert!(rt; wrong == flaw, "row {k}");
        assert_eq!(rt; at, if may { 0 } else { 1 }, "row {k}");
    }
    Ok(())
}
