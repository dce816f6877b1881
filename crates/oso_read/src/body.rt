//! Sections and ops, line by line.

ghost use Rattle.std.specs.Prelude.{◌≡◌, ◌≤◌, length};

use crate::error::OsoKind;
use crate::fault::LineFault;
use crate::hints::Said;
use crate::op_line::{code_at, op_at};
use crate::owner::{may_follow, op_of, owner_named};
use crate::table::Table;
use osl_value::{Memory, ShaderKind};
use oso_code::checks::limits::MOST_OPS;
use oso_code::checks::ops::op_fits;
use oso_code::checks::sections::owner_fits;
use oso_code::{Op, Section};
use std::alloc::Global;

/// A section that has begun: its owner, none for the body, and the number of its first op.
#[derive(Clone, Copy, Debug, PartialEq, Eq)]
pub(crate) struct Start {
    pub(crate) owner: Option<u32>,
    pub(crate) op: u32,
}

/// The sections that have begun, the ops, and the number of each op's line.
#[derive(Debug, Drop)]
pub(crate) struct BodyLines {
    pub(crate) starts: Vec<Start>,
    pub(crate) ops: Vec<Op>,
    pub(crate) lines: Vec<u32>,
    ghost few: { length ops.items ≤ 65536 },
}

impl BodyLines {
    ghost use Rattle.std.specs.Prelude.{IfOk};
    ghost use Rattle.oso_read.specs.Finds.{Finds};
    ghost use Rattle.oso_read.specs.BodyLines.{body_of};
    ghost use Rattle.oso_read.specs.Reading.{empty_body, last_start, has_main, owner_now, section_begun, code_read, op_added, op_read, sections_of};
    ghost use Rattle.oso_read.specs.Said.{seen};

    pub(crate) fn new(alloc: Global) -> BodyLines
        ensures { body_of result ≡ empty_body }
    {
        BodyLines {
            starts: Vec::new(alloc),
            ops: Vec::new(alloc),
            lines: Vec::new(alloc),
        }
    }

    /// The section that began last.
    fn last_start(&self) -> Option<Start>
        ensures { result ≡ last_start self.now.starts.items }
    {
        self.starts.as_slice().last().copied()
    }

    /// The owner of the section that began last.
    fn owner(&self) -> Option<u32>
        ensures { result ≡ owner_now (body_of self.now) }
    {
        match self.last_start() {
            Some(start) => start.owner,
            None => None,
        }
    }

    /// Whether the section that began last is the body's.
    pub(crate) fn has_main(&self) -> bool
        ensures { result ≡ has_main (last_start self.now.starts.items) }
    {
        match self.last_start() {
            Some(start) => start.owner.is_none(),
            None => false,
        }
    }

    /// Begins a section.
    fn begin(&mut self, table: &Table, owner: Option<u32>) -> Result<(), LineFault>
        ensures { Finds (λ _. body_of self.new) result (section_begun table.now.symbols.items (body_of self.old) owner) }
    {
        if !(owner_fits(table.symbols(), owner) && may_follow(self.last_start(), owner)) {
            return Err(LineFault::Kind(OsoKind::Op));
        }
        let op = self.ops.len() as u32;
        self.starts.push(Start { owner, op })?;
        Ok(())
    }

    /// A `code` line.
    #[tactic(auto, unfolding(crate::specs::Reading::code_read))]
    pub(crate) fn read_code(&mut self, table: &Table, said: Said) -> Result<(), LineFault>
        ensures { Finds (λ _. body_of self.new) result (code_read table.now.symbols.items (body_of self.old) (seen said.entry)) }
    {
        let Some(name) = code_at(said) else {
            return Err(LineFault::Kind(OsoKind::Line));
        };
        let Some(owner) = owner_named(table, name) else {
            return Err(LineFault::Kind(OsoKind::Op));
        };
        self.begin(table, owner)
    }

    /// Puts an op after the others.
    fn add(&mut self, kind: ShaderKind, table: &Table, op: Op, line: u32) -> Result<(), LineFault>
        ensures { Finds (λ _. body_of self.new) result (op_added kind table.now.symbols.items (body_of self.old) line op) }
    {
        if !op_fits(kind, table.symbols(), self.owner(), &op) {
            return Err(LineFault::Kind(OsoKind::Op));
        }
        if self.ops.len() >= MOST_OPS {
            return Err(LineFault::Kind(OsoKind::Limit));
        }
        self.ops.push(op)?;
        self.lines.push(line)?;
        Ok(())
    }

    /// An op's line.
    #[tactic(auto, unfolding(crate::specs::Reading::op_read))]
    pub(crate) fn read_op(
        &mut self,
        alloc: Global,
        kind: ShaderKind,
        table: &Table,
        said: Said,
        line: u32,
    ) -> Result<(), LineFault>
        ensures { Finds (λ _. body_of self.new) result
            (op_read kind table.now.symbols.items (body_of self.old) line (seen said.entry)) }
    {
        let words = match op_at(alloc, said) {
            Ok(words) => words,
            Err(unread) => return Err(LineFault::of(unread, OsoKind::Line)),
        };
        let op = match op_of(alloc, table, words) {
            Ok(op) => op,
            Err(fault) => return Err(fault),
        };
        self.add(kind, table, op, line)
    }

    /// The sections: each ends where the next begins, and the last where the ops end.
    pub(crate) fn sections(&self, alloc: Global) -> Result<Vec<Section>, Memory>
        ensures { IfOk result (λ sections. sections.items ≡ sections_of self.now.starts.items (length self.now.ops.items)) }
    {
        let mut sections = Vec::new(alloc);
        for (at, start) in self.starts.iter().enumerate() {
            let end = match self.starts.get(at + 1) {
                Some(next) => next.op,
                None => self.ops.len() as u32,
            };
            sections.push(Section {
                param: start.owner,
                start: start.op,
                end,
            })?;
        }
        Ok(sections)
    }
}
