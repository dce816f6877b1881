//! The fields of a structure. OSL specification, section "Structures".

ghost use Rattle.std.specs.Prelude.{◌≡◌, None, [], ◌∷◌, ◌++◌, map, OnOk, OnErr};
ghost use Rattle.osl_typed.specs.Scopes.{field_named};

use crate::names::Names;
use osl_overload::Kind;
use sqlite_items::Items;
use std::alloc::{AllocError, Global};
use std::marker::Model;

/// The fields of a structure, in their order. Contracts see them as the list of their names and kinds.
#[derive(Drop)]
pub struct Fields {
    names: Names,
    kinds: Items<Kind>,
}

impl Model for Fields {
    ghost use Rattle.std.specs.Prelude.{◌≡◌, ◌<◌, ◌^◌, List, length};
    ghost use Rattle.osl_typed.specs.Scopes.{FieldName};
    ghost use Rattle.osl_names.specs.Places.{fields_of};

    ghost Value = { List FieldName };

    ghost view = { λ f. fields_of f.names f.kinds };

    ghost invariant = { λ f. (length f.names ≡ length f.kinds) × (length f.kinds < 2 ^ 32) };
}

impl Fields {
    /// No field.
    #[tactic(auto, unfolding(crate::specs::Places::fields_of))]
    pub fn new(alloc: Global) -> Fields
        ensures { result ≡ [] }
    {
        Fields {
            names: Names::new(alloc),
            kinds: Items::new(alloc),
        }
    }

    /// The number and the kind of the field of a name.
    #[tactic(auto, using(crate::proofs::Placing::field_by))]
    pub fn named(&self, name: &[u8]) -> Option<(u32, Kind)>
        ensures { result ≡ field_named 0 self.now name.now }
    {
        let at = self.names.place_of(name)?;
        let kind = self.kinds.get(at)?;
        Some((at as u32, *kind))
    }

    /// The kinds of the fields.
    #[tactic(auto, using(crate::proofs::Placing::kinds_again))]
    pub fn kinds(&self) -> &[Kind]
        ensures { result.now ≡ map (λ field. field.kind) self.now }
    {
        self.kinds.as_slice()
    }

    /// Puts a field after the others. They stay as they were where an allocation fails.
    #[tactic(auto, using(crate::proofs::Placing::one_more_field, crate::proofs::Placing::no_field))]
    pub fn push(&mut self, alloc: Global, name: &[u8], kind: Kind) -> Result<(), AllocError>
        requires { field_named 0 self.old name.now ≡ None }
        ensures pushed { OnOk result (self.new ≡ self.old ++ (record { name = name.now; kind = kind }) ∷ []) }
        ensures kept { OnErr result (self.new ≡ self.old) }
    {
        if self.kinds.len() >= u32::MAX as usize {
            return Err(AllocError);
        }
        self.kinds.push(kind)?;
        match self.names.push(alloc, name) {
            Ok(()) => Ok(()),
            Err(_) => {
                let _ = self.kinds.pop();
                Err(AllocError)
            }
        }
    }
}
