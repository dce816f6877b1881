//! What was made so far.

ghost use Rattle.std.specs.Prelude.{◌≡◌, ◌<◌, ◌≤◌, ◌∷◌, ◌++◌, [], length, slice_set, false, None, IfOk, OnOk, IsTrue};
ghost use Rattle.osl_gencode.specs.OwnNames.{own_name, AreNamed};
ghost use Rattle.osl_genparts.specs.Made.{AddsConstant, most, own_symbol, open_op};
ghost use Rattle.oso_code.specs.Holding.{is_type};
ghost use Rattle.oso_code.specs.Symbols.{is_parameter, is_global, is_value_of, has_value};

use crate::constants::{ConstantTable, find, row_of};
use itoa::Buffer;
use osl_value::{Memory, OpName, Text, Ty, Value};
use oso_code::{Class, ListOf, Op, Symbol};
use std::alloc::Global;
use std::marker::Model;

/// Ops and symbols. Contracts see both as lists. The symbols fit, and those of the compiler have the names of their
/// numbers.
#[derive(Drop)]
pub struct Made {
    alloc: Global,
    ops: ListOf<Op>,
    symbols: ListOf<Symbol>,
    constants: ConstantTable,
}

impl Model for Made {
    ghost use Rattle.osl_gencode.specs.OwnNames.{AreNamed};
    ghost use Rattle.osl_genparts.specs.Made.{Making};

    ghost Value = { Making };

    ghost view = { λ m. record { ops = m.ops; symbols = m.symbols } };

    ghost invariant = { λ m. AreNamed m.symbols };
}

/// The name of the compiler's symbol of this number.
fn own_name(alloc: Global, n: u32) -> Result<Text, Memory>
    ensures { IfOk result (λ name. name ≡ own_name n) }
{
    let mut bytes = Vec::from_slice(alloc, b"$")?;
    bytes.extend_from_slice(Buffer::new().format(n).as_bytes())?;
    match Text::new(bytes) {
        Some(name) => Ok(name),
        None => unreachable!(),
    }
}

impl Made {
    /// Nothing so far.
    pub fn new(alloc: Global) -> Result<Made, Memory>
        ensures { IfOk result (λ made. made ≡ record { ops = []; symbols = [] }) }
    {
        let constants = ConstantTable::new(alloc)?;
        Ok(Made {
            alloc,
            ops: ListOf::new(Vec::new(alloc)),
            symbols: ListOf::new(Vec::new(alloc)),
            constants,
        })
    }

    /// How many ops there are.
    pub fn op_count(&self) -> usize
        ensures { result ≡ length self.now.ops }
    {
        self.ops.len()
    }

    /// Adds a symbol with the name of its number.
    fn add(&mut self, class: Class, ty: Ty, value: Option<Value>) -> Result<u32, Memory>
        requires few { length self.old.symbols < most }
        requires no_parameter { is_parameter class ≡ false }
        requires no_global { is_global class ≡ false }
        requires language { IsTrue (is_type ty) }
        requires holds { IsTrue (is_value_of (has_value class ty) ty value) }
        ensures place { IfOk result (λ r. r ≡ length self.old.symbols) }
        ensures added { OnOk result (self.new.symbols ≡ self.old.symbols ++ own_symbol (length self.old.symbols) class ty value ∷ []) }
        ensures ops { OnOk result (self.new.ops ≡ self.old.ops) }
    {
        let place = self.symbols.len() as u32;
        let symbol = Symbol {
            class,
            ty,
            name: own_name(self.alloc, place)?,
            value,
            metas: ListOf::new(Vec::new(self.alloc)),
        };
        self.symbols.push(symbol)?;
        Ok(place)
    }

    /// A new variable of the compiler.
    pub fn temp(&mut self, ty: Ty) -> Result<u32, Memory>
        requires few { length self.old.symbols < most }
        requires language { IsTrue (is_type ty) }
        ensures place { IfOk result (λ r. r ≡ length self.old.symbols) }
        ensures added { OnOk result (self.new.symbols ≡ self.old.symbols ++ own_symbol (length self.old.symbols) Class.Temp ty None ∷ []) }
        ensures ops { OnOk result (self.new.ops ≡ self.old.ops) }
    {
        self.add(Class::Temp, ty, None)
    }

    /// A new variable of the source.
    pub fn local(&mut self, ty: Ty) -> Result<u32, Memory>
        requires few { length self.old.symbols < most }
        requires language { IsTrue (is_type ty) }
        ensures place { IfOk result (λ r. r ≡ length self.old.symbols) }
        ensures added { OnOk result (self.new.symbols ≡ self.old.symbols ++ own_symbol (length self.old.symbols) Class.Local ty None ∷ []) }
        ensures ops { OnOk result (self.new.ops ≡ self.old.ops) }
    {
        self.add(Class::Local, ty, None)
    }

    /// The constant of this value: one that there is, or a new one.
    pub fn constant(&mut self, value: Value) -> Result<u32, Memory>
        requires few { length self.old.symbols < most }
        ensures added { IfOk result (λ c. AddsConstant self.old.symbols self.new.symbols value c) }
        ensures ops { OnOk result (self.new.ops ≡ self.old.ops) }
    {
        let ty = value.ty();
        let row = row_of(&value);
        if let Some(symbol) = find(self.symbols.as_slice(), self.constants.row(row), &value) {
            return Ok(symbol);
        }
        let place = self.add(Class::Const, ty, Some(value))?;
        self.constants.note(row, place)?;
        Ok(place)
    }

    /// Adds an operation that has no ranges.
    pub fn op(&mut self, name: OpName, args: Vec<u32>) -> Result<(), Memory>
        ensures ops { OnOk result (self.new.ops ≡ self.old.ops ++ record { name = name; args = args.items; jumps = [] } ∷ []) }
        ensures symbols { OnOk result (self.new.symbols ≡ self.old.symbols) }
    {
        let jumps = Vec::new(self.alloc);
        self.ops.push(Op {
            name,
            args: ListOf::new(args),
            jumps: ListOf::new(jumps),
        })?;
        Ok(())
    }

    /// Adds an operation into a new variable of the compiler, of the type that it gives.
    pub fn computed(&mut self, name: OpName, ty: Ty, operands: Vec<u32>) -> Result<u32, Memory>
        requires few { length self.old.symbols < most }
        requires language { IsTrue (is_type ty) }
        ensures place { IfOk result (λ r. r ≡ length self.old.symbols) }
        ensures symbols { OnOk result (self.new.symbols ≡ self.old.symbols ++ own_symbol (length self.old.symbols) Class.Temp ty None ∷ []) }
        ensures ops { OnOk result (self.new.ops ≡ self.old.ops ++ record { name = name; args = length self.old.symbols ∷ operands.items; jumps = [] } ∷ []) }
    {
        let to = self.temp(ty)?;
        let mut args = operands;
        args.insert(0, to)?;
        self.op(name, args)?;
        Ok(to)
    }

    /// Adds an op whose ranges are not known yet. It is set by `close`.
    pub fn open(&mut self) -> Result<(), Memory>
        ensures ops { OnOk result (self.new.ops ≡ self.old.ops ++ open_op ∷ []) }
        ensures symbols { OnOk result (self.new.symbols ≡ self.old.symbols) }
    {
        self.op(OpName::Exit, Vec::new(self.alloc))
    }

    /// Sets the op at a place: a control op, with the ends of its ranges.
    pub fn close(&mut self, at: usize, name: OpName, args: Vec<u32>, jumps: Vec<u32>)
        requires { at < length self.old.ops }
        ensures ops { self.new.ops ≡ slice_set self.old.ops at (record { name = name; args = args.items; jumps = jumps.items }) }
        ensures symbols { self.new.symbols ≡ self.old.symbols }
    {
        self.ops.set(
            at,
            Op {
                name,
                args: ListOf::new(args),
                jumps: ListOf::new(jumps),
            },
        );
    }

    /// The ops and the symbols, given back. The symbols fit.
    pub fn into_lists(self) -> (ListOf<Op>, ListOf<Symbol>)
        ensures ops { result.0 ≡ self.ops }
        ensures symbols { result.1 ≡ self.symbols }
        ensures named { AreNamed result.1 }
    {
        let Made {
            alloc: _,
            ops,
            symbols,
            constants: _,
        } = self;
        (ops, symbols)
    }
}
