//! The analyses of one shader's code.

ghost use Rattle.std.specs.Prelude.{◌≡◌, ◌<◌, [], IfOk, length, slice_index_or};
ghost use Rattle.osl_flow.specs.Flow.{IsLiveAfter, reads_at_op, writes_at_op};
ghost use Rattle.osl_flow.specs.Uses.{has, row_of};

use crate::liveness::{copy_row, live_rows};
use crate::table::surroundings;
use crate::uses;
use osl_bits::BitRow;
use osl_value::Memory;
use oso_code::Shader;
use std::alloc::Global;
use std::marker::Model;

/// What the ops of a shader read and write, and what is live after each.
#[derive(Drop)]
pub struct Flow<'c> {
    code: &'c Shader,
    asked: BitRow,
    live: Vec<BitRow>,
}

impl<'c> Model for Flow<'c> {
    ghost use Rattle.osl_flow.specs.Flow.{View, IsFlow};

    ghost Value = { View };

    ghost view = { λ flow. record { code = flow.code.now; asked = flow.asked; live = flow.live.items } };

    ghost invariant = { λ flow. IsFlow (record { code = flow.code.now; asked = flow.asked; live = flow.live.items }) };
}

impl<'c> Flow<'c> {
    /// The analyses of a shader's code, of which these symbols are asked at the end.
    ///
    /// # Errors
    /// `Memory` where the rows cannot be had.
    pub fn of(alloc: Global, code: &'c Shader, asked: &BitRow) -> Result<Flow<'c>, Memory>
        requires { length asked.now ≡ length code.now.symbols }
        ensures code { IfOk result (λ flow. flow.code ≡ code.now) }
        ensures asked { IfOk result (λ flow. flow.asked ≡ asked.now) }
    {
        let around = surroundings(alloc, code)?;
        let live = live_rows(alloc, code.raw(), &around, asked)?;
        let asked = copy_row(alloc, asked)?;
        Ok(Flow { code, asked, live })
    }

    /// Makes a row the set of the symbols that an op reads.
    pub fn reads(&self, op: u32, into: &mut BitRow)
        requires op { op < length self.now.code.ops }
        requires row { length into.old ≡ length self.now.code.symbols }
        ensures { into.new ≡ row_of (length self.now.code.symbols) (has (reads_at_op self.now.code op)) }
    {
        uses::reads(&self.code.raw().ops.as_slice()[op as usize], into);
    }

    /// Makes a row the set of the symbols that an op writes.
    pub fn writes(&self, op: u32, into: &mut BitRow)
        requires op { op < length self.now.code.ops }
        requires row { length into.old ≡ length self.now.code.symbols }
        ensures { into.new ≡ row_of (length self.now.code.symbols) (has (writes_at_op self.now.code op)) }
    {
        uses::writes(&self.code.raw().ops.as_slice()[op as usize], into);
    }

    /// The symbols that are live after an op.
    pub fn live_after(&self, op: u32) -> &BitRow
        requires { op < length self.now.code.ops }
        ensures value { result.now ≡ slice_index_or self.now.live op [] }
        ensures exact { IsLiveAfter self.now.code self.now.asked op result.now }
    {
        &self.live[op as usize]
    }
}
