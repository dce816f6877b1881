//! The structures that are declared. OSL specification, section "Structures".

ghost use Rattle.std.specs.Prelude.{◌≡◌, None, [], ◌∷◌, ◌++◌, map, slice_get, option_map, IfOk, OnOk, OnErr};
ghost use Rattle.std.specs.Option.{option_copied};
ghost use Rattle.osl_typed.specs.Scopes.{structure_named, field_named};
ghost use Rattle.osl_typed.specs.Typing.{fields_of_structure};
ghost use Rattle.osl_typed.specs.FileTyping.{kinds_of_fields};

use crate::fields::Fields;
use crate::names::Names;
use osl_overload::Kind;
use osl_typed::TypedStructure;
use sqlite_items::Items;
use std::alloc::{AllocError, Global};
use std::marker::Model;

/// The structures that are declared, by their numbers. Contracts see them as the list of their names and fields.
#[derive(Drop)]
pub struct Structures {
    names: Names,
    fields: Items<Fields>,
}

impl Model for Structures {
    ghost use Rattle.std.specs.Prelude.{◌≡◌, ◌<◌, ◌^◌, List, length};
    ghost use Rattle.osl_typed.specs.Scopes.{StructureName};
    ghost use Rattle.osl_names.specs.Places.{structures_of};

    ghost Value = { List StructureName };

    ghost view = { λ s. structures_of s.names s.fields };

    ghost invariant = { λ s. (length s.names ≡ length s.fields) × (length s.fields < 2 ^ 32) };
}

impl Structures {
    /// No structure.
    #[tactic(auto, unfolding(crate::specs::Places::structures_of))]
    pub fn new(alloc: Global) -> Structures
        ensures { result ≡ [] }
    {
        Structures {
            names: Names::new(alloc),
            fields: Items::new(alloc),
        }
    }

    /// The number of the structure of a name.
    #[tactic(auto, using(crate::proofs::Placing::structure_by))]
    pub fn named(&self, name: &[u8]) -> Option<u32>
        ensures { result ≡ structure_named 0 self.now name.now }
    {
        let at = self.names.place_of(name)?;
        Some(at as u32)
    }

    /// The fields of a structure, by its number.
    #[tactic(auto, using(crate::proofs::Placing::fields_at))]
    pub fn fields(&self, structure: u32) -> Option<&Fields>
        ensures { option_copied result ≡ option_map (λ s. s.fields) (slice_get self.now structure) }
    {
        self.fields.get(structure as usize)
    }

    /// The number and the kind of the field of a name, in the structure of this number.
    #[tactic(auto, unfolding(osl_typed::specs::Scopes::field_named))]
    pub fn field(&self, structure: u32, name: &[u8]) -> Option<(u32, Kind)>
        ensures { result ≡ field_named 0 (fields_of_structure self.now structure) name.now }
    {
        match self.fields(structure) {
            Some(fields) => fields.named(name),
            None => None,
        }
    }

    /// The kinds of the fields of the structure of this number.
    pub fn kinds(&self, structure: u32) -> &[Kind]
        ensures { result.now ≡ map (λ field. field.kind) (fields_of_structure self.now structure) }
    {
        match self.fields(structure) {
            Some(fields) => fields.kinds(),
            None => &[],
        }
    }

    /// Puts a structure after the others. They stay as they were where an allocation fails.
    #[tactic(auto, using(crate::proofs::Placing::one_more_structure, crate::proofs::Placing::structure_by))]
    pub fn add(&mut self, alloc: Global, name: &[u8], fields: Fields) -> Result<(), AllocError>
        requires { structure_named 0 self.old name.now ≡ None }
        ensures added { OnOk result (self.new ≡ self.old ++ (record { name = name.now; fields = fields }) ∷ []) }
        ensures kept { OnErr result (self.new ≡ self.old) }
    {
        if self.fields.len() >= u32::MAX as usize {
            return Err(AllocError);
        }
        self.fields.push(fields)?;
        match self.names.push(alloc, name) {
            Ok(()) => Ok(()),
            Err(_) => {
                let _ = self.fields.pop();
                Err(AllocError)
            }
        }
    }

    /// The structures as the typed tree has them: the kinds of their fields.
    pub fn typed(&self, alloc: Global) -> Result<Items<TypedStructure>, AllocError>
        ensures { IfOk result (λ all. all ≡ map kinds_of_fields self.now) }
    {
        let mut all = Items::new(alloc);
        for fields in self.fields.as_slice() {
            let fields = Items::from_slice(alloc, fields.kinds())?;
            all.push(TypedStructure { fields })?;
        }
        Ok(all)
    }
}
