//! Constants by what they hold.

ghost use Rattle.std.specs.Prelude.{◌≡◌, IsTrue, length, Some, IfSome};
ghost use Rattle.osl_genparts.specs.Made.{IsConstantOf};

use osl_value::{Memory, Text, Value};
use oso_code::{Class, Symbol};
use std::alloc::Global;

/// How many rows the table has.
const ROWS: usize = 1024;

/// The numbers of constants' symbols, in rows by what they hold.
#[derive(Drop)]
pub(crate) struct ConstantTable {
    rows: Vec<Vec<u32>>,
}

impl ConstantTable {
    pub(crate) fn new(alloc: Global) -> Result<ConstantTable, Memory> {
        let mut rows = Vec::with_capacity(alloc, ROWS)?;
        for _row in 0..ROWS {
            rows.push(Vec::new(alloc))?;
        }
        Ok(ConstantTable { rows })
    }

    /// The constants of a row.
    pub(crate) fn row(&self, row: usize) -> &[u32] {
        match self.rows.get(row) {
            Some(row) => row.as_slice(),
            None => &[],
        }
    }

    /// Notes the symbol of a constant of this row.
    pub(crate) fn note(&mut self, row: usize, symbol: u32) -> Result<(), Memory> {
        if let Some(symbols) = self.rows.get_mut(row) {
            symbols.push(symbol)?;
        }
        Ok(())
    }
}

/// The row of a value.
pub(crate) fn row_of(value: &Value) -> usize {
    let ty = value.ty();
    let mut mixed = ty.len as u64 * 16 + ty.base as u64;
    for n in value.nums() {
        mixed = mixed.wrapping_mul(31).wrapping_add(n.cast_unsigned());
    }
    for text in value.texts() {
        for byte in text.bytes() {
            mixed = mixed.wrapping_mul(31).wrapping_add(*byte as u64);
        }
    }
    ((mixed ^ (mixed >> 32)) % ROWS as u64) as usize
}

fn equal_texts(one: &[Text], other: &[Text]) -> bool
    ensures { IsTrue result → one.now ≡ other.now }
{
    if one.len() != other.len() {
        return false;
    }
    for i in 0..one.len() {
        if !one[i].equal(&other[i]) {
            return false;
        }
    }
    true
}

fn equal_numbers(one: &[i64], other: &[i64]) -> bool
    ensures { IsTrue result → one.now ≡ other.now }
{
    one == other
}

/// Whether they are equal.
fn equal(one: &Value, other: &Value) -> bool
    ensures { IsTrue result → one.now ≡ other.now }
{
    if one.ty() != other.ty() {
        return false;
    }
    if !equal_numbers(one.nums(), other.nums()) {
        return false;
    }
    equal_texts(one.texts(), other.texts())
}

/// Whether the symbol is a constant of this value.
fn is_constant(symbol: &Symbol, value: &Value) -> bool
    ensures class { IsTrue result → symbol.now.class ≡ Class.Const }
    ensures ty { IsTrue result → symbol.now.ty ≡ value.now.ty }
    ensures value { IsTrue result → symbol.now.value ≡ Some value.now }
{
    let Some(held) = &symbol.value else {
        return false;
    };
    symbol.class == Class::Const && symbol.ty == value.ty() && equal(held, value)
}

/// Of these symbols the first that is a constant of the value.
pub(crate) fn find(symbols: &[Symbol], row: &[u32], value: &Value) -> Option<u32>
    ensures { IfSome result (λ c. IsConstantOf symbols.now c value.now) }
{
    for c in row {
        if let Some(symbol) = symbols.get(*c as usize)
            && is_constant(symbol, value)
        {
            return Some(*c);
        }
    }
    None
}
