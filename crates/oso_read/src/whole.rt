//! A text of code, whole.

ghost use Rattle.std.specs.Prelude.{◌≡◌, ◌<◌, ◌≤◌, ◌-◌, ◌^◌, List, length, slice_index, Ok, IfOk};
ghost use Rattle.oso_code.specs.declared.raw.Raw.{Raw};
ghost use Rattle.oso_code.specs.declared.symbol.Symbol.{Symbol};
ghost use Rattle.oso_code.specs.Valid.{most_ops};
ghost use Rattle.oso_read.specs.Faults.{Gives};
ghost use Rattle.oso_read.specs.Reading.{raw_of, range_fault, in_range, reading};
ghost use Rattle.oso_read.specs.Finds.{found};
ghost use Rattle.oso_read.specs.Said.{head_of};
ghost use Rattle.oso_read.specs.SymbolLine.{Head};
ghost use Rattle.oso_read.specs.Spelt.{Spelt};

use crate::body::BodyLines;
use crate::error::{OsoError, OsoKind};
use crate::parts::{bad, read_body, read_end, read_head, read_symbols};
use crate::reader::Reader;
use crate::symbol_line::HeadLine;
use crate::table::Table;
use osl_value::Memory;
use oso_code::checks::opened::RangeFaults;
use oso_code::checks::ranges::range_faults;
use oso_code::{ListOf, Op, Raw, Section, Shader};
use std::alloc::Global;

/// The fault that comes first of those that a walk over the ops found, with the op's number.
fn first_of(faults: RangeFaults) -> Option<(OsoKind, u32)>
    ensures { result ≡ found faults.jump faults.deep }
{
    match (faults.jump, faults.deep) {
        (_, Some(deep)) => Some((OsoKind::Limit, deep)),
        (Some(jump), None) => Some((OsoKind::Jump, jump)),
        (None, None) => None,
    }
}

/// The first op whose jumps, `break` or `continue` are not valid, or whose ranges pass the limit
/// of nesting, with its number.
fn range_fault(
    alloc: Global,
    sections: &[Section],
    ops: &[Op],
) -> Result<Option<(OsoKind, u32)>, Memory>
    requires { length ops.now < 2 ^ 32 }
    ensures { IfOk result (λ fault. (head : Head) (symbols : List Symbol) → fault ≡ range_fault (raw_of head symbols sections.now ops.now)) }
{
    let faults = range_faults(alloc, sections, ops)?;
    Ok(first_of(faults))
}

/// The number of an op's line.
fn line_of(lines: &[u32], op: u32) -> u32
    ensures { result ≡ slice_index lines.now op }
{
    match lines.get(op as usize) {
        Some(line) => *line,
        None => 0,
    }
}

/// Code, if its ranges are valid.
fn in_range(alloc: Global, raw: Raw, lines: &[u32]) -> Result<Raw, OsoError>
    requires { length raw.ops < 2 ^ 32 }
    ensures { Gives (λ raw. raw) result (in_range raw lines.now (range_fault raw)) }
{
    match range_fault(alloc, raw.sections.as_slice(), raw.ops.as_slice())? {
        Some((kind, op)) => Err(bad(kind, line_of(lines, op))),
        None => Ok(raw),
    }
}

/// Code of its parts.
fn raw_of(head: HeadLine, table: Table, sections: Vec<Section>, ops: Vec<Op>) -> Raw
    ensures { result ≡ raw_of (head_of head) table.symbols.items sections.items ops.items }
{
    let HeadLine { kind, name, metas } = head;
    Raw {
        kind,
        name,
        metas,
        symbols: ListOf::new(table.into_symbols()),
        sections: ListOf::new(sections),
        ops: ListOf::new(ops),
    }
}

/// The code that a text spells.
#[tactic(auto, unfolding(crate::specs::Reading::reading, crate::specs::Reading::closed))]
fn read_raw(alloc: Global, bytes: &[u8]) -> Result<Raw, OsoError>
    requires { length bytes.now < 2 ^ 32 - 1 }
    ensures { Gives (λ raw. raw) result (reading bytes.now) }
{
    let mut reader = Reader::new(alloc, bytes)?;
    let head = read_head(alloc, &mut reader)?;
    let table = read_symbols(alloc, &mut reader)?;
    let body = read_body(alloc, head.kind, &table, &mut reader)?;
    read_end(bytes, &body, &mut reader)?;
    let sections = body.sections(alloc)?;
    let BodyLines {
        starts: _,
        ops,
        lines,
    } = body;
    let raw = raw_of(head, table, sections, ops);
    in_range(alloc, raw, lines.as_slice())
}

/// The shader that a text reads as.
fn read_shader(alloc: Global, bytes: &[u8]) -> Result<Shader, OsoError>
    requires { length bytes.now < 2 ^ 32 - 1 }
    ensures { Gives (λ shader. shader) result (reading bytes.now) }
{
    let raw = read_raw(alloc, bytes)?;
    Ok(Shader::of_flawless(raw))
}

/// The shader that a text spells.
///
/// `Bad` comes with the kind and the line of the first fault. Jumps and nesting are tried only where
/// there is no other fault.
pub fn read(alloc: Global, bytes: &[u8]) -> Result<Shader, OsoError>
    requires { length bytes.now < 2 ^ 32 - 1 }
    // What is read is spelled so.
    ensures found { IfOk result (λ shader. Spelt bytes.now shader) }
    // What is spelled so is read, unless memory runs out.
    ensures only { (raw : Raw) → Spelt bytes.now raw → Gives (λ shader. shader) result (Ok raw) }
    // Which fault it is.
    ensures exact { Gives (λ shader. shader) result (reading bytes.now) }
{
    read_shader(alloc, bytes)
}
