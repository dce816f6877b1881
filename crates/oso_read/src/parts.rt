//! The parts of a text: its first two lines, the symbols, the body, and the end.

ghost use Rattle.std.specs.Prelude.{◌≡◌, ◌+◌, ◌-◌, ◌==◌, false, [], length, option_map, slice_index, IfSome, OnOk};
ghost use Rattle.std.specs.Option.{ok_or};
ghost use Rattle.std.specs.Cmp.Lexicographic.{pointwise};
ghost use Rattle.std.specs.Str.{bytes_eq};
ghost use Rattle.oso_write.specs.Lines.{header};
ghost use Rattle.oso_read.specs.declared.error.OsoError.TheVariants as errors;
ghost use Rattle.oso_read.specs.declared.error.OsoKind.TheVariants as kinds;
ghost use Rattle.oso_read.specs.BodyLines.{body_of};
ghost use Rattle.oso_read.specs.Faults.{Gives};
ghost use Rattle.oso_read.specs.Finds.{Finds};
ghost use Rattle.oso_read.specs.Left.{left, line_after};
ghost use Rattle.oso_read.specs.Reading.{says_header, heard, headed, named_from, opened, symbol_added, declared_from, empty_body, body_line, filled_from, says_end, is_ended, ended};
ghost use Rattle.oso_read.specs.Said.{seen, head_of};
ghost use Rattle.osl_valuetext.specs.Scan.{spoken};
ghost use Rattle.oso_read.specs.SymbolLine.{head_at};
ghost use Rattle.oso_read.specs.Text.{line_count};

use crate::body::BodyLines;
use crate::error::{OsoError, OsoKind};
use crate::fault::LineFault;
use crate::hints::{Said, lacks_metadata};
use crate::op_line::is_end;
use crate::reader::Reader;
use crate::symbol_line::{HeadLine, head_at, symbol_at};
use crate::table::Table;
use osl_value::ShaderKind;
use std::alloc::Global;

/// A fault of a line.
pub(crate) fn bad(kind: OsoKind, line: u32) -> OsoError
    ensures { result ≡ errors.Bad kind line }
{
    OsoError::Bad { kind, line }
}

/// The words of the first line.
const HEADER: [&[u8]; 2] = [b"OpenShadingLanguage", b"1.00"];

fn are_header(words: &[&[u8]]) -> bool
    ensures { result ≡ pointwise bytes_eq (spoken words.now) header }
{
    words == HEADER.as_slice()
}

/// Whether a line is `OpenShadingLanguage 1.00`.
fn is_header(said: Option<Said>) -> bool
    ensures { result ≡ says_header (option_map seen said.entry) }
{
    match said {
        Some(said) => lacks_metadata(said) && are_header(said.words),
        None => false,
    }
}

/// Reads the header.
#[tactic(auto, unfolding(crate::specs::Reading::headed))]
fn read_header(reader: &mut Reader) -> Result<(), OsoError>
    ensures header { Gives (λ _. left reader.new) result (headed (line_after reader.old) (left reader.old)) }
    ensures after { OnOk result (line_after reader.new ≡ line_after reader.old) }
{
    let Some(line) = reader.number() else {
        return Err(bad(OsoKind::Header, reader.number_after()));
    };
    if !is_header(reader.said()) {
        return Err(bad(OsoKind::Header, line));
    }
    reader.advance()?;
    Ok(())
}

/// What the line of the shader's kind and name says.
fn head_of_line(alloc: Global, said: Option<Said>) -> Result<HeadLine, LineFault>
    ensures { Finds head_of result (heard kinds.Header (λ s. ok_or (head_at s) kinds.Header) (option_map seen said.entry)) }
{
    let Some(said) = said else {
        return Err(LineFault::Kind(OsoKind::Header));
    };
    match head_at(alloc, said) {
        Ok(head) => Ok(head),
        Err(unread) => Err(LineFault::of(unread, OsoKind::Header)),
    }
}

/// Reads the line of the shader's kind and name.
#[tactic(auto, unfolding(crate::specs::Reading::named_from))]
fn read_named(alloc: Global, reader: &mut Reader) -> Result<HeadLine, OsoError>
    ensures head { Gives (λ head. record { head = head_of head; rest = left reader.new }) result (named_from (line_after reader.old) (left reader.old)) }
    ensures after { OnOk result (line_after reader.new ≡ line_after reader.old) }
{
    let Some(line) = reader.number() else {
        return Err(bad(OsoKind::Header, reader.number_after()));
    };
    let head = match head_of_line(alloc, reader.said()) {
        Ok(head) => head,
        Err(fault) => return Err(fault.at(line)),
    };
    reader.advance()?;
    Ok(head)
}

/// Reads the first two lines.
#[tactic(auto, unfolding(crate::specs::Reading::opened))]
pub(crate) fn read_head(alloc: Global, reader: &mut Reader) -> Result<HeadLine, OsoError>
    ensures head { Gives (λ head. record { head = head_of head; rest = left reader.new }) result (opened (line_after reader.old) (left reader.old)) }
    ensures after { OnOk result (line_after reader.new ≡ line_after reader.old) }
{
    read_header(reader)?;
    read_named(alloc, reader)
}

/// Reads the line of a symbol.
#[tactic(auto, unfolding(crate::specs::Reading::symbol_added))]
fn read_symbol(alloc: Global, table: Table, said: Option<Said>) -> Result<Table, LineFault>
    ensures { Finds (λ table. table.symbols.items) result (heard kinds.Line (symbol_added table.symbols.items) (option_map seen said.entry)) }
{
    let Some(said) = said else {
        return Err(LineFault::Kind(OsoKind::Line));
    };
    match symbol_at(alloc, said) {
        Ok(symbol) => table.with(alloc, symbol),
        Err(unread) => Err(LineFault::of(unread, OsoKind::Line)),
    }
}

/// Reads the symbols up to the first `code` or `end`.
pub(crate) fn read_symbols(alloc: Global, reader: &mut Reader) -> Result<Table, OsoError>
    ensures symbols { Gives (λ table. record { symbols = table.symbols.items; rest = left reader.new }) result (declared_from [] (left reader.old)) }
    ensures after { OnOk result (line_after reader.new ≡ line_after reader.old) }
{
    let mut table = Table::new(alloc);
    while let Some(line) = reader.number() {
        if reader.begins_body() {
            return Ok(table);
        }
        table = match read_symbol(alloc, table, reader.said()) {
            Ok(table) => table,
            Err(fault) => return Err(fault.at(line)),
        };
        reader.advance()?;
    }
    Ok(table)
}

/// Reads a `code` line or an op's.
fn read_body_line(
    alloc: Global,
    kind: ShaderKind,
    table: &Table,
    body: &mut BodyLines,
    reader: &Reader,
    line: u32,
) -> Result<(), LineFault>
    ensures { Finds (λ _. body_of body.new) result (body_line kind table.now.symbols.items (body_of body.old) (record { number = line; line = spoken reader.now.words.items })) }
{
    let Some(said) = reader.said() else {
        return Err(LineFault::Kind(OsoKind::Line));
    };
    if reader.is_code_line() {
        body.read_code(table, said)
    } else {
        body.read_op(alloc, kind, table, said, line)
    }
}

/// Reads the sections and their ops, up to `end`.
pub(crate) fn read_body(
    alloc: Global,
    kind: ShaderKind,
    table: &Table,
    reader: &mut Reader,
) -> Result<BodyLines, OsoError>
    ensures body { Gives (λ body. record { body = body_of body; rest = left reader.new }) result (filled_from kind table.now.symbols.items empty_body (left reader.old)) }
    ensures after { OnOk result (line_after reader.new ≡ line_after reader.old) }
{
    let mut body = BodyLines::new(alloc);
    while let Some(line) = reader.number() {
        if reader.is_end_line() {
            return Ok(body);
        }
        if let Err(fault) = read_body_line(alloc, kind, table, &mut body, reader, line) {
            return Err(fault.at(line));
        }
        reader.advance()?;
    }
    Ok(body)
}

fn says_end(said: Option<Said>) -> bool
    ensures { result ≡ says_end (option_map seen said.entry) }
{
    match said {
        Some(said) => is_end(said),
        None => false,
    }
}

fn ends_in_line_feed(text: &[u8]) -> bool
    ensures { result ≡ (slice_index text.now (length text.now - 1) == 10) }
{
    matches!(text, [.., b'\n'])
}

/// Whether the line has its line feed.
fn is_ended(text: &[u8], reader: &Reader) -> bool
    requires { line_after reader.now ≡ line_count text.now + 1 }
    ensures value { IfSome reader.now.number (λ number. result ≡ is_ended text.now number) }
    ensures last { result ≡ false → length reader.now.lines.rest.now ≡ 0 }
{
    !reader.is_last() || ends_in_line_feed(text)
}

/// Reads `end` with its line feed, after which nothing means something.
#[tactic(auto, unfolding(crate::specs::Reading::ended))]
pub(crate) fn read_end(text: &[u8], body: &BodyLines, reader: &mut Reader) -> Result<(), OsoError>
    requires { line_after reader.old ≡ line_count text.now + 1 }
    ensures { Gives (λ _. tt) result (ended text.now (body_of body.now) (left reader.old)) }
{
    let Some(line) = reader.number() else {
        return Err(bad(OsoKind::Line, reader.number_after()));
    };
    if !(says_end(reader.said()) && body.has_main()) {
        return Err(bad(OsoKind::Line, line));
    }
    if !is_ended(text, reader) {
        return Err(bad(OsoKind::Line, reader.number_after()));
    }
    reader.advance()?;
    match reader.number() {
        Some(behind) => Err(bad(OsoKind::Line, behind)),
        None => Ok(()),
    }
}
