ghost use Rattle.std.specs.Prelude.{◌≡◌};
ghost use Rattle.osl_job.specs.Reader.{Reads, ReadsWhole, piece};
ghost use Rattle.osl_job.specs.GroupText as spec;

use crate::names::{is_name, split_point};
use crate::text::{ReadStop, Text, TextForm};
use sqlite_items::Items;
use std::alloc::Global;

/// A group of one layer, with its one asked output.
#[derive(Drop)]
pub struct Group {
    pub shader: Items<u8>,
    pub layer: Items<u8>,
    pub param: Items<u8>,
}

/// The group that a text of the small form spells.
pub fn read_group(alloc: Global, bytes: &[u8]) -> Result<Group, ReadStop>
    ensures { ReadsWhole (spec.small_group bytes.now) result }
{
    let mut text = Text::new(TextForm::Group, bytes);
    let group = two_statements(alloc, &mut text)?;
    if text.is_end() {
        Ok(group)
    } else {
        Err(ReadStop::NotBuilt)
    }
}

/// A `shader` statement and an `output` statement.
fn two_statements(alloc: Global, text: &mut Text<'_>) -> Result<Group, ReadStop>
    ensures { Reads (spec.group text.old) result text.new }
{
    text.word(b"shader")?;
    let shader = name(alloc, text)?;
    let layer = name(alloc, text)?;
    text.mark(b';')?;
    text.word(b"output")?;
    let param = asked(alloc, text, layer.as_slice())?;
    text.mark(b';')?;
    Ok(Group {
        shader,
        layer,
        param,
    })
}

fn name(alloc: Global, text: &mut Text<'_>) -> Result<Items<u8>, ReadStop>
    ensures { Reads (piece spec.name text.old) result text.new }
{
    let Some(found) = text.first_piece() else {
        return Err(ReadStop::NotBuilt);
    };
    if !is_name(found) {
        return Err(ReadStop::NotBuilt);
    }
    let name = Items::from_slice(alloc, found)?;
    text.skip();
    Ok(name)
}

/// The parameter of a pair, whose layer this must be.
fn asked(alloc: Global, text: &mut Text<'_>, layer: &[u8]) -> Result<Items<u8>, ReadStop>
    ensures { Reads (piece (spec.asked_of layer.now) text.old) result text.new }
{
    let Some(found) = text.first_piece() else {
        return Err(ReadStop::NotBuilt);
    };
    let (before, after) = split_point(found);
    if before != layer || !is_name(after) {
        return Err(ReadStop::NotBuilt);
    }
    let param = Items::from_slice(alloc, after)?;
    text.skip();
    Ok(param)
}

/// Whether `point` is the only word of a point file.
pub fn is_one_point(bytes: &[u8]) -> bool
    ensures { result ≡ spec.is_one_point bytes.now }
{
    let mut text = Text::new(TextForm::Points, bytes);
    text.eat_word(b"point") && text.is_end()
}
