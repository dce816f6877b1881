//! The first flaw of code, kind by kind.

ghost use Rattle.std.specs.Prelude.{◌≡◌, ◌<◌, ◌^◌, ◌&&◌, nat_le, is_none, length, IfOk};
ghost use Rattle.oso_code.specs.Faults.{misfits, least};
ghost use Rattle.oso_code.specs.Ops.{op_in_fits};
ghost use Rattle.oso_code.specs.Sections.{op_faults};
ghost use Rattle.oso_code.specs.Symbols.{symbol_at_fits, symbol_faults};
ghost use Rattle.oso_code.specs.Valid.{most_ops, most_symbols, most_slots, slots_of, first_flaw};

use crate::checks::limits::fits_counts;
use crate::checks::ops::op_fits;
use crate::checks::ranges::range_faults;
use crate::checks::sections::{first_wrong_section, owner_in, section_from, sooner_of};
use crate::checks::symbols::{header_fits, symbol_fits};
use crate::error::FlawKind;
use crate::op::{Op, Section};
use crate::raw::Raw;
use crate::symbol::Symbol;
use indexmap::IndexSet;
use osl_value::{Memory, ShaderKind};
use std::alloc::Global;

/// The number of the first symbol that does not fit, its name being taken by an earlier one included.
fn first_wrong_symbol(alloc: Global, symbols: &[Symbol]) -> Result<Option<u32>, Memory>
    requires { length symbols.now < 2 ^ 32 }
    ensures { IfOk result (λ place. place ≡ least (misfits (symbol_at_fits symbols.now) 0 symbols.now)) }
{
    let mut names = IndexSet::new(alloc);
    let mut leading = true;
    for (at, symbol) in symbols.iter().enumerate() {
        if !symbol_fits(leading, symbol) {
            return Ok(Some(at as u32));
        }
        if !names.insert(symbol.name.bytes())? {
            return Ok(Some(at as u32));
        }
        leading = leading && symbol.class.is_parameter();
    }
    Ok(None)
}

/// The number of the first op that does not fit in its section.
fn first_wrong_op(
    kind: ShaderKind,
    symbols: &[Symbol],
    sections: &[Section],
    ops: &[Op],
) -> Option<u32>
    requires { length ops.now < 2 ^ 32 }
    ensures { result ≡ least (misfits (op_in_fits kind symbols.now sections.now) 0 ops.now) }
{
    let mut section = 0;
    for (at, op) in ops.iter().enumerate() {
        section = section_from(sections, section, at);
        if !op_fits(kind, symbols, owner_in(sections, section), op) {
            return Some(at as u32);
        }
    }
    None
}

/// The first fault of the shader's name and metadata and of its symbols.
fn first_symbol_fault(alloc: Global, raw: &Raw) -> Result<Option<u32>, Memory>
    requires { length raw.now.symbols < 2 ^ 32 }
    ensures { IfOk result (λ place. place ≡ least (symbol_faults raw.now)) }
{
    if !header_fits(raw) {
        return Ok(Some(0));
    }
    first_wrong_symbol(alloc, raw.symbols.as_slice())
}

/// The first fault of ops and of sections.
fn first_op_fault(alloc: Global, raw: &Raw) -> Result<Option<u32>, Memory>
    requires { length raw.now.ops < 2 ^ 32 }
    ensures { IfOk result (λ place. place ≡ least (op_faults raw.now)) }
{
    let symbols = raw.symbols.as_slice();
    let op = first_wrong_op(
        raw.kind,
        symbols,
        raw.sections.as_slice(),
        raw.ops.as_slice(),
    );
    let section = first_wrong_section(alloc, raw)?;
    Ok(sooner_of(op, section))
}

/// Whether the code is within its limits, where `deep` is the first op whose ranges nest too deep.
fn fits_limits(raw: &Raw, deep: Option<u32>) -> bool
    ensures { result ≡ ((nat_le (length raw.now.symbols) most_symbols && nat_le (length raw.now.ops) most_ops) && nat_le (slots_of raw.now.symbols) most_slots) && is_none deep }
{
    fits_counts(raw.symbols.as_slice(), raw.ops.len()) && deep.is_none()
}

/// The first flaw of code: the first kind of which there is a fault, with its first place.
pub fn first_flaw(alloc: Global, raw: &Raw) -> Result<Option<(FlawKind, u32)>, Memory>
    requires symbols { length raw.now.symbols < 2 ^ 32 }
    requires ops { length raw.now.ops < 2 ^ 32 }
    ensures { IfOk result (λ flaw. flaw ≡ first_flaw raw.now) }
{
    if let Some(at) = first_symbol_fault(alloc, raw)? {
        return Ok(Some((FlawKind::Symbol, at)));
    }
    if let Some(at) = first_op_fault(alloc, raw)? {
        return Ok(Some((FlawKind::Op, at)));
    }
    let faults = range_faults(alloc, raw.sections.as_slice(), raw.ops.as_slice())?;
    if let Some(at) = faults.jump {
        return Ok(Some((FlawKind::Jump, at)));
    }
    if !fits_limits(raw, faults.deep) {
        return Ok(Some((FlawKind::Limit, 0)));
    }
    Ok(None)
}
