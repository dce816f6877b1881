//! How the sections of code follow each other.

ghost use Rattle.std.specs.Prelude.{◌≡◌, ◌≤◌, ◌<◌, ◌^◌, ◌&&◌, ◌==◌, ◌++◌, nat_le, length, vec_len, slice_get, IsTrue, IfOk};
ghost use Rattle.std.specs.List.{list_all};
ghost use Rattle.osl_value.specs.Numbers.{is_zero};
ghost use Rattle.oso_code.specs.Faults.{least, sooner, unless};
ghost use Rattle.oso_code.specs.Sections.{is_zeros, may_own, owner_fits, owners_of, may_stand, owner_follows, section_fits, follows, is_body, later_faults, end_faults, section_faults, EndBefore};
ghost use Rattle.oso_code.specs.Ops.{section_at, owner_of};
ghost use Rattle.oso_code.specs.Symbols.{is_empty};

use crate::op::Section;
use crate::raw::Raw;
use crate::symbol::Symbol;
use osl_value::{Text, Value};
use std::alloc::{AllocError, Global};

fn are_zero(nums: &[i64]) -> bool
    ensures { result ≡ list_all is_zero nums.now }
{
    nums.iter().all(|n| *n == 0)
}

fn are_empty(texts: &[Text]) -> bool
    ensures { result ≡ list_all is_empty texts.now }
{
    texts.iter().all(|text| text.bytes().is_empty())
}

/// Zeros and empty strings, or no value.
fn is_zeros(value: &Option<Value>) -> bool
    ensures { result ≡ is_zeros value.now }
{
    match value {
        Some(value) => are_zero(value.nums()) && are_empty(value.texts()),
        None => true,
    }
}

/// Whether there may be a section of this symbol: it is a parameter, and its values are zeros.
fn may_own(symbol: &Symbol) -> bool
    ensures { result ≡ may_own symbol.now }
{
    symbol.class.is_parameter() && is_zeros(&symbol.value)
}

/// Whether there may be a section of the body, or of this parameter.
pub fn owner_fits(symbols: &[Symbol], owner: Option<u32>) -> bool
    ensures { result ≡ owner_fits symbols.now owner }
{
    let Some(owner) = owner else {
        return true;
    };
    match symbols.get(owner as usize) {
        Some(symbol) => may_own(symbol),
        None => false,
    }
}

/// Of each symbol, whether there may be a section of it.
fn owners(alloc: Global, symbols: &[Symbol]) -> Result<Vec<bool>, AllocError>
    ensures { IfOk result (λ owners. owners.items ≡ owners_of symbols.now) }
{
    symbols.iter().map(|symbol| may_own(symbol)).collect(alloc)
}

/// Whether there may be a section of the body, or of the symbol of this number.
fn may_stand(owners: &[bool], owner: Option<u32>) -> bool
    ensures { result ≡ may_stand owners.now owner }
{
    match owner {
        Some(owner) => owners.get(owner as usize).copied().unwrap_or(false),
        None => true,
    }
}

/// Whether a section may follow one of `before`: nothing follows the body, and parameters follow in their order.
pub fn owner_follows(before: Option<u32>, owner: Option<u32>) -> bool
    ensures { result ≡ owner_follows before owner }
{
    match (before, owner) {
        (None, _) => false,
        (Some(_), None) => true,
        (Some(before), Some(owner)) => before < owner,
    }
}

fn section_fits(raw: &Raw, owners: &[bool], section: Section) -> bool
    requires { owners.now ≡ owners_of raw.now.symbols }
    ensures { result ≡ section_fits raw.now section }
{
    may_stand(owners, section.param)
        && section.start <= section.end
        && section.end as usize <= raw.ops.len()
}

fn follows(before: Section, section: Section) -> bool
    ensures { result ≡ follows before section }
{
    owner_follows(before.param, section.param) && section.start == before.end
}

/// The least of the places, of which the first is perhaps not there.
pub fn sooner(found: Option<u32>, place: u32) -> Option<u32>
    ensures { result ≡ sooner found (Some place) }
{
    match found {
        Some(found) => Some(found.min(place)),
        None => Some(place),
    }
}

/// The least of two places, each perhaps not there.
pub fn sooner_of(first: Option<u32>, second: Option<u32>) -> Option<u32>
    ensures { result ≡ sooner first second }
{
    match second {
        Some(second) => sooner(first, second),
        None => first,
    }
}

/// The places so far, and one more where a test fails.
fn or_fault(found: Option<u32>, fits: bool, place: u32) -> Option<u32>
    ensures { result ≡ sooner found (least (unless fits place)) }
{
    if fits { found } else { sooner(found, place) }
}

/// The least place at which a section is at fault, or at which the last one is no body that ends where the ops end.
pub fn first_wrong_section(alloc: Global, raw: &Raw) -> Result<Option<u32>, AllocError>
    ensures { IfOk result (λ place. place ≡ least (section_faults raw.now raw.now.sections)) }
{
    match raw.sections.as_slice() {
        [first, others @ ..] => {
            let owners = owners(alloc, raw.symbols.as_slice())?;
            let fits = first.start == 0 && section_fits(raw, owners.as_slice(), *first);
            let found = or_fault(None, fits, first.start);
            Ok(first_wrong_behind(raw, owners.as_slice(), found, *first, others))
        }
        [] => Ok(Some(0)),
    }
}

/// The same of the sections after one, with what is found so far.
fn first_wrong_behind(
    raw: &Raw,
    owners: &[bool],
    found: Option<u32>,
    first: Section,
    others: &[Section],
) -> Option<u32>
    requires { owners.now ≡ owners_of raw.now.symbols }
    ensures { result ≡ sooner found (least (later_faults raw.now first others.now ++ end_faults raw.now first others.now)) }
{
    let mut found = found;
    let mut before = first;
    for section in others {
        let fits = follows(before, *section) && section_fits(raw, owners, *section);
        found = or_fault(found, fits, section.start);
        before = *section;
    }
    or_fault(found, ends_code(raw, before), before.end)
}

/// Whether the last section is that of the body, and ends where the ops end.
fn ends_code(raw: &Raw, last: Section) -> bool
    ensures { result ≡ is_body last.param && nat_le (length raw.now.ops) last.end }
{
    last.param.is_none() && raw.ops.len() <= last.end as usize
}

/// The number of the section that an op is in, where the sections before `from` end before it; their count where
/// there is none.
pub fn section_from(sections: &[Section], from: usize, at: usize) -> usize
    requires within { from ≤ length sections.now }
    requires past { EndBefore sections.now from at }
    ensures within { result ≤ length sections.now }
    ensures past { EndBefore sections.now result at }
    ensures section { slice_get sections.now result ≡ section_at sections.now at }
{
    for number in from..sections.len() {
        if at < sections[number].end as usize {
            return number;
        }
    }
    sections.len()
}

/// The section of a number.
pub fn section_in(sections: &[Section], number: usize) -> Option<Section>
    ensures { result ≡ slice_get sections.now number }
{
    sections.get(number).copied()
}

/// The parameter whose section it is, by the section's number.
pub fn owner_in(sections: &[Section], number: usize) -> Option<u32>
    ensures { result ≡ owner_of (slice_get sections.now number) }
{
    match sections.get(number) {
        Some(section) => section.param,
        None => None,
    }
}
