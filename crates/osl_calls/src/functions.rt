ghost use Rattle.std.specs.Prelude.{◌≡◌, ◌++◌, List, [], OnOk, OnErr, IfOk};
ghost use Rattle.std.specs.Cmp.Lexicographic.{pointwise};
ghost use Rattle.std.specs.List.{list_any};
ghost use Rattle.std.specs.Option.{option_copied};
ghost use Rattle.osl_overload.specs.Kinds.{same_kind};
ghost use Rattle.osl_overload.specs.declared.signature.Kind.{Kind};
ghost use Rattle.osl_typed.specs.FileTyping.{is_taken};
ghost use Rattle.osl_typed.specs.Scopes.{StructureName, with_function};
ghost use Rattle.osl_typed.specs.Typing.{candidates, formal_kinds};
ghost use Rattle.osl_calls.specs.Calling.{own_candidates, sole_kind};
ghost use Rattle.osl_calls.specs.Named.{candidate};
ghost use Rattle.osl_calls.specs.Table.{functions_in, functions_of, sight_of};

use crate::array_length::own_kind;
use crate::built_in::LINES;
use crate::named::Named;
use crate::table::Table;
use osl_overload::{Formal, Kind, Signature};
use osl_typed::Callee;
use std::alloc::{AllocError, Global};
use std::marker::Model;

/// The functions by name: the built-in ones, and after them the declared ones. Contracts see the names with their
/// functions, of which `functions_of` has the declared ones.
#[derive(Drop)]
pub struct Functions {
    table: Table,
}

impl Model for Functions {
    ghost use Rattle.osl_calls.specs.Table.{Table as Names, HasBuiltIns};

    ghost Value = { Names };

    ghost view = { λ f. f.table };

    ghost invariant = { λ f. HasBuiltIns f.table };
}

impl Functions {
    /// The built-in functions alone.
    pub fn new(alloc: Global) -> Result<Functions, AllocError>
        ensures { IfOk result (λ functions. functions_of functions ≡ (λ name. [])) }
    {
        let mut table = Table::new(alloc);
        table.add_lines(alloc, &LINES)?;
        Ok(Functions { table })
    }

    /// Adds a declared function after those of its name. Where an allocation fails, or 2^32 - 1 functions have the name, all
    /// stays as it is.
    pub fn add(
        &mut self,
        alloc: Global,
        name: &[u8],
        signature: Signature,
        callee: Callee,
    ) -> Result<(), AllocError>
        ensures ok { OnOk result (functions_of self.new ≡ with_function name.now (candidate signature callee) (functions_of self.old)) }
        ensures err { OnErr result (functions_of self.new ≡ functions_of self.old) }
    {
        self.table.push(alloc, name, signature, callee)
    }

    /// The functions that a call of a name may mean, but for `arraylength`.
    pub(crate) fn named(&self, name: &[u8]) -> Option<&Named>
        ensures { (structures : List StructureName) (kinds : List Kind) → candidates (sight_of structures self.now) name.now kinds ≡ own_candidates name.now kinds ++ functions_in (option_copied result) }
    {
        self.table.named(name)
    }

    /// Whether a function of this name takes parameters of just these kinds.
    pub fn is_taken(&self, name: &[u8], formals: &[Formal]) -> bool
        ensures { (structures : List StructureName) → result ≡ is_taken (sight_of structures self.now) name.now (formal_kinds formals.now) }
    {
        let named = self.named(name);
        if own_kind(name, sole_kind(formals)).is_some() {
            return true;
        }
        take(named, formals)
    }
}

/// Whether one of these functions takes parameters of just these kinds.
fn take(named: Option<&Named>, formals: &[Formal]) -> bool
    ensures { result ≡ list_any (λ c. pointwise same_kind (formal_kinds c.signature.params) (formal_kinds formals.now)) (functions_in (option_copied named.entry)) }
{
    match named {
        Some(named) => named.takes(formals),
        None => false,
    }
}

/// The kind of the one parameter, if there is one.
fn sole_kind(formals: &[Formal]) -> Option<Kind>
    ensures { result ≡ sole_kind (formal_kinds formals.now) }
{
    match formals {
        [formal] => Some(formal.kind),
        _ => None,
    }
}
