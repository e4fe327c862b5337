ghost use Rattle.std.specs.Prelude.{◌≡◌, [], ◌∷◌, ◌++◌, length, take, OnErr, OnOk};
ghost use Rattle.std.specs.Option.{option_copied};
ghost use Rattle.name_index.specs.Names.{named};

use crate::NameIndex;
use hal_base::{Items, Memory, Text};
use std::alloc::Global;
use std::marker::Model;

/// What has a name.
pub trait Named {
    ghost use Rattle.std.specs.Prelude.{ℕ, List};

    ghost name: { Self → List ℕ };

    fn name(&self) -> &Text
        ensures { result.now ≡ name self.now };
}

/// Items in the order in which they came, of which the first of a name is found by the index of their names.
#[derive(Drop)]
pub struct NamedItems<T: Named> {
    items: Items<T>,
    names: NameIndex,
}

impl<T: Named> Model for NamedItems<T> {
    ghost use Rattle.std.specs.Prelude.{◌≡◌, List, map};

    ghost Value = { List T };

    ghost view = { λ n. n.items };

    ghost invariant = { λ n. n.names ≡ map T.name n.items };
}

impl<T: Named> NamedItems<T> {
    /// No items; more grow in this allocator.
    pub fn new(alloc: Global) -> NamedItems<T>
        ensures { result ≡ [] }
    {
        NamedItems {
            items: Items::new(alloc),
            names: NameIndex::new(alloc),
        }
    }

    pub fn len(&self) -> usize
        ensures { result ≡ length self.now }
    {
        self.items.len()
    }

    /// The first item of this name.
    pub fn find(&self, name: &[u8]) -> Option<&T>
        ensures { option_copied result ≡ named T.name name.now self.now }
    {
        match self.names.place_of(name) {
            Some(place) => self.items.get(place),
            None => None,
        }
    }
}

impl<T: Named + Drop> NamedItems<T> {
    /// Adds an item at the end. After `Memory` the items are as before.
    pub fn push(&mut self, alloc: Global, item: T) -> Result<(), Memory>
        ensures ok { OnOk result (self.new ≡ self.old ++ item ∷ []) }
        ensures err { OnErr result (self.new ≡ self.old) }
    {
        let before = self.items.len();
        self.names.push(alloc, item.name())?;
        let pushed = self.items.push(item);
        if pushed.is_err() {
            self.names.truncate(before);
        }
        pushed
    }

    /// Forgets the items past this many.
    pub fn truncate(&mut self, len: usize)
        ensures { self.new ≡ take len self.old }
    {
        self.items.truncate(len);
        self.names.truncate(len);
    }
}
