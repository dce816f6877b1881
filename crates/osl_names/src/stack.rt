//! Bindings of names, the last the innermost, with a table of the innermost of each name.

ghost use Rattle.std.specs.Prelude.{◌≡◌, ℕ, List, [], ◌∷◌, length, drop, ◌-◌, OnOk, OnErr, cond, bytes_eq, IsSome};
ghost use Rattle.std.specs.Option.{option_copied};
ghost use Rattle.osl_typed.specs.Scopes.{look};
ghost use Rattle.osl_names.specs.Stack.{place_by};

use indexmap::IndexMap;
use osl_typed::Binding;
use sqlite_items::Items;
use std::alloc::{AllocError, Global};
use std::marker::Model;

/// A binding, and the place in the stack of the one that it hides.
#[derive(Drop)]
pub(crate) struct Entry {
    pub(crate) binding: Binding,
    pub(crate) hidden: Option<usize>,
}

/// Bindings. Contracts see them as their list, innermost first.
#[derive(Drop)]
pub(crate) struct Stack {
    /// The place of the innermost binding of each name.
    places: IndexMap<Vec<u8>, usize>,
    entries: Items<Entry>,
}

/// The name, which the table has, means again what it meant before.
fn restore(places: &mut IndexMap<Vec<u8>, usize>, name: &[u8], hidden: Option<usize>)
    requires { IsSome (place_by (λ k. k.items) name.now places.old) }
    ensures { (w : List ℕ) → place_by (λ k. k.items) w places.new ≡ cond (bytes_eq name.now w) hidden (place_by (λ k. k.items) w places.old) }
{
    match hidden {
        Some(at) => {
            if let Some(place) = places.get_mut(name) {
                *place = at;
            }
        }
        None => {
            let _ = places.swap_remove(name);
        }
    }
}

impl Model for Stack {
    ghost use Rattle.std.specs.Prelude.{List};
    ghost use Rattle.osl_typed.specs.declared.found.Binding.{Binding};
    ghost use Rattle.osl_names.specs.Stack.{flip, bindings_of, Tied};

    ghost Value = { List Binding };

    ghost view = { λ s. bindings_of (flip s.entries) };

    ghost invariant = { λ s. Tied (λ k. k.items) s.places s.entries };
}

impl Stack {
    pub(crate) fn new(alloc: Global) -> Stack
        ensures { result ≡ [] }
    {
        Stack {
            places: IndexMap::new(alloc),
            entries: Items::new(alloc),
        }
    }

    /// How many bindings there are.
    #[tactic(auto, using(crate::proofs::Stacks::counted))]
    pub(crate) fn len(&self) -> usize
        ensures { result ≡ length self.now }
    {
        self.entries.len()
    }

    /// The innermost binding of a name.
    pub(crate) fn look(&self, name: &[u8]) -> Option<&Binding>
        ensures { option_copied result ≡ look name.now self.now }
    {
        let at = *self.places.get(name)?;
        let entry = self.entries.get(at)?;
        Some(&entry.binding)
    }

    /// Puts a binding inside the others.
    #[tactic(auto, using(crate::proofs::Stacks::push_bindings))]
    pub(crate) fn push(&mut self, alloc: Global, binding: Binding) -> Result<(), AllocError>
        ensures pushed { OnOk result (self.new ≡ binding ∷ self.old) }
        ensures kept { OnErr result (self.new ≡ self.old) }
    {
        let name = Vec::from_slice(alloc, binding.name.as_slice())?;
        let at = self.entries.len();
        let hidden = self.places.get(name.as_slice()).copied();
        self.entries.push(Entry { binding, hidden })?;
        match self.places.insert(name, at) {
            Ok(_) => Ok(()),
            Err(_) => {
                let _ = self.entries.pop();
                Err(AllocError)
            }
        }
    }

    /// Takes the innermost binding back.
    pub(crate) fn pop(&mut self)
        ensures { self.new ≡ drop 1 self.old }
    {
        if let Some(entry) = self.entries.pop() {
            restore(
                &mut self.places,
                entry.binding.name.as_slice(),
                entry.hidden,
            );
        }
    }

    /// Takes the innermost bindings back until so many are left.
    pub(crate) fn shorten(&mut self, count: usize)
        ensures { self.new ≡ drop (length self.old - count) self.old }
    {
        while self.len() > count {
            self.pop();
        }
    }
}
