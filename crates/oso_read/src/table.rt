//! The symbols that have been read, with a table of their names.

ghost use Rattle.std.specs.Prelude.{◌≡◌, ◌≤◌, ◌&&◌, not, [], length};
ghost use Rattle.oso_code.specs.Symbols.{are_parameters, is_parameter, is_taken, fits_behind};
ghost use Rattle.oso_code.specs.Valid.{slots_of, most_symbols, most_slots};
ghost use Rattle.oso_read.specs.SymbolNames.{names_of, has_room};

use crate::error::OsoKind;
use crate::fault::LineFault;
use crate::name_table::NameTable;
use osl_value::Ty;
use oso_code::checks::limits::{MOST_SLOTS, MOST_SYMBOLS};
use oso_code::checks::symbols::symbol_fits;
use oso_code::{Class, Symbol};
use std::alloc::Global;

/// Symbols in their order.
#[derive(Drop)]
pub(crate) struct Table {
    symbols: Vec<Symbol>,
    names: NameTable,
    slots: u64,
    leading: bool,
    ghost named: { names ≡ names_of symbols.items },
    ghost counted: { slots ≡ slots_of symbols.items },
    ghost few: { length symbols.items ≤ most_symbols },
    ghost small: { slots ≤ most_slots },
    ghost leads: { leading ≡ are_parameters symbols.items },
}

impl Table {
    ghost use Rattle.oso_read.specs.Reading.{symbol_number, added};
    ghost use Rattle.oso_read.specs.Finds.{Finds};

    pub(crate) fn new(alloc: Global) -> Table
        ensures { result.symbols.items ≡ [] }
    {
        Table {
            symbols: Vec::new(alloc),
            names: NameTable::new(alloc),
            slots: 0,
            leading: true,
        }
    }

    /// The number of the symbol of a name.
    pub(crate) fn number_of(&self, name: &[u8]) -> Option<u32>
        ensures { result ≡ symbol_number self.now.symbols.items name.now }
    {
        match self.names.place_of(name) {
            Some(place) => Some(place as u32),
            None => None,
        }
    }

    /// Whether a symbol passes no limit after the others.
    fn has_room(&self, ty: Ty) -> bool
        ensures { result ≡ has_room self.now.symbols.items ty }
    {
        self.symbols.len() < MOST_SYMBOLS && self.slots + ty.slot_count() <= MOST_SLOTS
    }

    /// Whether no symbol has the name.
    fn is_free(&self, name: &[u8]) -> bool
        ensures { result ≡ not (is_taken self.now.symbols.items name.now) }
    {
        !self.names.contains(name)
    }

    /// Whether a symbol fits after the others.
    fn fits(&self, symbol: &Symbol) -> bool
        ensures { result ≡ fits_behind self.now.symbols.items symbol.now }
    {
        symbol_fits(self.leading, symbol) && self.is_free(symbol.name.bytes())
    }

    /// Whether the symbols are parameters with one of a class after them.
    fn leads(&self, class: Class) -> bool
        ensures { result ≡ are_parameters self.now.symbols.items && is_parameter class }
    {
        self.leading && class.is_parameter()
    }

    /// The symbols with one more after them.
    pub(crate) fn with(self, alloc: Global, symbol: Symbol) -> Result<Table, LineFault>
        ensures { Finds (λ table. table.symbols.items) result (added self.symbols.items symbol) }
    {
        if !self.fits(&symbol) {
            return Err(LineFault::Kind(OsoKind::Symbol));
        }
        if !self.has_room(symbol.ty) {
            return Err(LineFault::Kind(OsoKind::Limit));
        }
        let slots = self.slots + symbol.ty.slot_count();
        let leading = self.leads(symbol.class);
        let Table {
            mut symbols,
            mut names,
            slots: _,
            leading: _,
        } = self;
        names.push(alloc, symbol.name.bytes())?;
        symbols.push(symbol)?;
        Ok(Table {
            symbols,
            names,
            slots,
            leading,
        })
    }

    pub(crate) fn symbols(&self) -> &[Symbol]
        ensures { result.now ≡ self.now.symbols.items }
    {
        self.symbols.as_slice()
    }

    /// The symbols, given back.
    pub(crate) fn into_symbols(self) -> Vec<Symbol>
        ensures { result.items ≡ self.symbols.items }
    {
        let Table {
            symbols,
            names: _,
            slots: _,
            leading: _,
        } = self;
        symbols
    }
}
