//! Equal copies of the parts of code.

ghost use Rattle.std.specs.Prelude.{◌≡◌, IfOk};

use crate::list::ListOf;
use crate::op::Op;
use crate::raw::Raw;
use crate::symbol::{Meta, Symbol};
use osl_value::{Memory, Value};
use std::alloc::Global;

impl Raw {
    /// An equal copy.
    pub fn copy(&self, alloc: Global) -> Result<Raw, Memory>
        ensures { IfOk result (λ copy. copy ≡ self.now) }
    {
        let name = self.name.copy()?;
        let metas = copy_metas(alloc, self.metas.as_slice())?;
        let symbols = copy_symbols(alloc, self.symbols.as_slice())?;
        let sections = self.sections.copy(alloc)?;
        let ops = copy_ops(alloc, self.ops.as_slice())?;
        Ok(Raw {
            kind: self.kind,
            name,
            metas,
            symbols,
            sections,
            ops,
        })
    }
}

impl Meta {
    /// An equal copy.
    pub fn copy(&self, alloc: Global) -> Result<Meta, Memory>
        ensures { IfOk result (λ copy. copy ≡ self.now) }
    {
        let name = self.name.copy()?;
        let nums = self.nums.copy(alloc)?;
        let texts = copy_texts(alloc, self.texts.as_slice())?;
        Ok(Meta {
            ty: self.ty,
            name,
            nums,
            texts,
        })
    }
}

impl Symbol {
    /// An equal copy.
    pub fn copy(&self, alloc: Global) -> Result<Symbol, Memory>
        ensures { IfOk result (λ copy. copy ≡ self.now) }
    {
        let name = self.name.copy()?;
        let value = copy_value(&self.value)?;
        let metas = copy_metas(alloc, self.metas.as_slice())?;
        Ok(Symbol {
            class: self.class,
            ty: self.ty,
            name,
            value,
            metas,
        })
    }
}

impl Op {
    /// An equal copy.
    pub fn copy(&self, alloc: Global) -> Result<Op, Memory>
        ensures { IfOk result (λ copy. copy ≡ self.now) }
    {
        let args = self.args.copy(alloc)?;
        let jumps = self.jumps.copy(alloc)?;
        Ok(Op {
            name: self.name,
            args,
            jumps,
        })
    }
}

fn copy_texts(alloc: Global, texts: &[ListOf<u8>]) -> Result<ListOf<ListOf<u8>>, Memory>
    ensures { IfOk result (λ copy. copy ≡ texts.now) }
{
    let mut copies = Vec::with_capacity(alloc, texts.len())?;
    for text in texts {
        copies.push(text.copy(alloc)?)?;
    }
    Ok(ListOf::new(copies))
}

fn copy_metas(alloc: Global, metas: &[Meta]) -> Result<ListOf<Meta>, Memory>
    ensures { IfOk result (λ copy. copy ≡ metas.now) }
{
    let mut copies = Vec::with_capacity(alloc, metas.len())?;
    for meta in metas {
        copies.push(meta.copy(alloc)?)?;
    }
    Ok(ListOf::new(copies))
}

fn copy_value(value: &Option<Value>) -> Result<Option<Value>, Memory>
    ensures { IfOk result (λ copy. copy ≡ value.now) }
{
    match value {
        Some(value) => {
            let copy = value.copy()?;
            Ok(Some(copy))
        }
        None => Ok(None),
    }
}

fn copy_symbols(alloc: Global, symbols: &[Symbol]) -> Result<ListOf<Symbol>, Memory>
    ensures { IfOk result (λ copy. copy ≡ symbols.now) }
{
    let mut copies = Vec::with_capacity(alloc, symbols.len())?;
    for symbol in symbols {
        copies.push(symbol.copy(alloc)?)?;
    }
    Ok(ListOf::new(copies))
}

fn copy_ops(alloc: Global, ops: &[Op]) -> Result<ListOf<Op>, Memory>
    ensures { IfOk result (λ copy. copy ≡ ops.now) }
{
    let mut copies = Vec::with_capacity(alloc, ops.len())?;
    for op in ops {
        copies.push(op.copy(alloc)?)?;
    }
    Ok(ListOf::new(copies))
}
