//! Names in the order in which they came, each looked up at once.

ghost use Rattle.std.specs.Prelude.{◌≡◌, None, [], ◌∷◌, ◌++◌, OnOk, OnErr, bytes_eq};
ghost use Rattle.std.specs.List.{position};

use indexmap::IndexSet;
use std::alloc::{AllocError, Global};
use std::marker::Model;

/// Names. Contracts see them as their list.
#[derive(Drop)]
pub(crate) struct Names {
    names: IndexSet<Vec<u8>>,
}

impl Model for Names {
    ghost use Rattle.std.specs.Prelude.{List, ℕ, map};

    ghost Value = { List (List ℕ) };

    ghost view = { λ table. map (λ name. name.items) table.names.keys };
}

impl Names {
    pub(crate) fn new(alloc: Global) -> Names
        ensures { result ≡ [] }
    {
        Names {
            names: IndexSet::new(alloc),
        }
    }

    /// The place of a name.
    pub(crate) fn place_of(&self, name: &[u8]) -> Option<usize>
        ensures { result ≡ position (bytes_eq name.now) self.now }
    {
        self.names.get_index_of(name)
    }

    /// Puts a new name after the others.
    pub(crate) fn push(&mut self, alloc: Global, name: &[u8]) -> Result<(), AllocError>
        requires { position (bytes_eq name.now) self.old ≡ None }
        ensures pushed { OnOk result (self.new ≡ self.old ++ name.now ∷ []) }
        ensures kept { OnErr result (self.new ≡ self.old) }
    {
        let key = Vec::from_slice(alloc, name)?;
        self.names.insert(key)?;
        Ok(())
    }
}
