ghost use Rattle.std.specs.Prelude.{◌≡◌, ℕ, List, [], ◌∷◌, ◌++◌, bytes_eq, map, OnOk, OnErr, IfOk, if◌then◌else◌};
ghost use Rattle.std.specs.Option.{option_copied};
ghost use Rattle.osl_typed.specs.BuiltIns.{input};
ghost use Rattle.osl_calls.specs.Lines.{signature_of, line_of, named_in};
ghost use Rattle.osl_calls.specs.Named.{candidate};
ghost use Rattle.osl_calls.specs.Table.{functions_in, held};

use crate::built_in::{Line, Takes};
use crate::named::Named;
use indexmap::IndexMap;
use osl_overload::{Formal, FormalList, Kind, Signature};
use osl_typed::Callee;
use std::alloc::{AllocError, Global};
use std::marker::Model;

/// Functions by name. Contracts see the names with their functions.
#[derive(Drop)]
pub(crate) struct Table {
    by_name: IndexMap<Vec<u8>, Named>,
}

impl Model for Table {
    ghost use Rattle.std.specs.Prelude.{map};
    ghost use Rattle.osl_calls.specs.Table.{Table as Names};

    ghost Value = { Names };

    ghost view = { λ t. map (λ entry. (entry.0.items, entry.1)) t.by_name.entries };
}

impl Table {
    pub(crate) fn new(alloc: Global) -> Table
        ensures { result ≡ [] }
    {
        Table {
            by_name: IndexMap::new(alloc),
        }
    }

    /// The functions of a name, if there are any.
    pub(crate) fn named(&self, name: &[u8]) -> Option<&Named>
        ensures { functions_in (option_copied result) ≡ held self.now name.now }
    {
        self.by_name.get(name)
    }

    /// Adds a function of a name, after the others.
    pub(crate) fn push(
        &mut self,
        alloc: Global,
        name: &[u8],
        signature: Signature,
        callee: Callee,
    ) -> Result<(), AllocError>
        ensures ok { OnOk result ((other : List ℕ) → held self.new other ≡ (if bytes_eq other name.now then held self.old other ++ candidate signature callee ∷ [] else held self.old other)) }
        ensures err { OnErr result ((other : List ℕ) → held self.new other ≡ held self.old other) }
    {
        if let Some(named) = self.by_name.get_mut(name) {
            return named.push(signature, callee);
        }
        let key = Vec::from_slice(alloc, name)?;
        let mut named = Named::new(alloc);
        named.push(signature, callee)?;
        self.by_name.insert(key, named)?;
        Ok(())
    }

    /// Adds the functions of a line.
    fn add_line(&mut self, alloc: Global, line: &Line) -> Result<(), AllocError>
        ensures { OnOk result ((name : List ℕ) → held self.new name ≡ held self.old name ++ named_in (line_of line.now ∷ []) name) }
    {
        for takes in line.2 {
            let signature = signature_of(alloc, takes)?;
            self.push(alloc, line.0, signature, line.1)?;
        }
        Ok(())
    }

    /// Adds the functions of lines.
    pub(crate) fn add_lines(&mut self, alloc: Global, lines: &[Line]) -> Result<(), AllocError>
        ensures { OnOk result ((name : List ℕ) → held self.new name ≡ held self.old name ++ named_in (map line_of lines.now) name) }
    {
        for line in lines {
            self.add_line(alloc, line)?;
        }
        Ok(())
    }
}

/// Parameters of these kinds, none of them output.
fn inputs(alloc: Global, kinds: &[Kind]) -> Result<Vec<Formal>, AllocError>
    ensures { IfOk result (λ formals. formals.items ≡ map input kinds.now) }
{
    kinds
        .iter()
        .map(|kind| Formal {
            kind: *kind,
            output: false,
        })
        .collect(alloc)
}

/// The signature of a function that takes these kinds.
fn signature_of(alloc: Global, takes: &Takes) -> Result<Signature, AllocError>
    ensures { IfOk result (λ signature. signature ≡ signature_of takes.now) }
{
    let formals = inputs(alloc, takes.0)?;
    Ok(Signature {
        params: FormalList::new(formals),
        result: takes.1,
    })
}
