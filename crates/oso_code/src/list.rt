ghost use Rattle.std.specs.Prelude.{◌≡◌, ◌<◌, ◌++◌, [], ◌∷◌, length, slice_set, IfOk, OnOk, OnErr};
ghost use Rattle.std.specs.Fn.{CalledAt};
ghost use Rattle.std.specs.List.Retain.{IsFiltered};

use osl_value::Memory;
use std::alloc::Global;
use std::marker::Model;

/// A list. Contracts see it as the list of its elements.
#[derive(Debug, Drop)]
pub struct ListOf<T> {
    items: Vec<T>,
}

impl<T> Model for ListOf<T> {
    ghost use Rattle.std.specs.Prelude.{List};
    ghost use Rattle.std.specs.Coded.{coded_list};

    ghost Value = { List T };

    ghost coded = { coded_list T.code };

    ghost view = { λ list. list.items.items };
}

impl<T> ListOf<T> {
    pub fn new(items: Vec<T>) -> ListOf<T>
        ensures { result ≡ items.items }
    {
        ListOf { items }
    }

    pub fn as_slice(&self) -> &[T]
        ensures { result.now ≡ self.now }
    {
        self.items.as_slice()
    }

    /// How many elements it has.
    pub fn len(&self) -> usize
        ensures { result ≡ length self.now }
    {
        self.items.len()
    }

    /// The elements, given back.
    pub fn into_vec(self) -> Vec<T>
        ensures { result.items ≡ self }
    {
        let ListOf { items } = self;
        items
    }
}

impl<T: Drop> ListOf<T> {
    /// Puts an element in the place of the one that is there.
    pub fn set(&mut self, at: usize, item: T)
        requires { at < length self.old }
        ensures { self.new ≡ slice_set self.old at item }
    {
        self.items[at] = item;
    }

    /// Adds an element at the end.
    pub fn push(&mut self, item: T) -> Result<(), Memory>
        ensures pushed { OnOk result (self.new ≡ self.old ++ (item ∷ [])) }
        ensures same { OnErr result (self.new ≡ self.old) }
    {
        self.items.push(item)?;
        Ok(())
    }

    /// Drops the elements of which `keeps` does not hold.
    pub fn retain<F: FnMut(&T) -> bool>(&mut self, keeps: F)
        requires { F.IsAlwaysCallable keeps }
        ensures { IsFiltered (CalledAt F.FnMut) keeps self.old self.new }
    {
        self.items.retain(keeps);
    }
}

impl<T: Copy> ListOf<T> {
    /// An equal list.
    pub fn copy(&self, alloc: Global) -> Result<ListOf<T>, Memory>
        ensures { IfOk result (λ list. list ≡ self.now) }
    {
        let items = Vec::from_slice(alloc, self.items.as_slice())?;
        Ok(ListOf { items })
    }
}
