//! An index of names: the first place of a name among many, and the first of many items that has a name.
#![tactic(auto)]

ghost use Rattle.std.specs.Prelude.{◌≡◌, ◌≤◌, ◌-◌, [], ◌∷◌, ◌++◌, length, take, IfSome, OnErr, OnOk};
ghost use Rattle.std.specs.List.{list_any};
ghost use Rattle.std.specs.Str.{bytes_eq};
ghost use Rattle.name_index.specs.Names.{place_of};

mod named;

use hal_base::{CopyIn, Memory, Text};
pub use named::{Named, NamedItems};
use std::alloc::Global;
use std::collections::BTreeMap;
use std::marker::Model;

/// Names in the order in which they came, and the first place of each of them.
#[derive(Drop)]
pub struct NameIndex {
    names: Vec<Text>,
    places: BTreeMap<Vec<u8>, usize>,
}

impl Model for NameIndex {
    ghost use Rattle.std.specs.Prelude.{◌≡◌, ℕ, List};
    ghost use Rattle.std.specs.BTreeMap.{get_by};
    ghost use Rattle.std.specs.Cmp.Lexicographic.{slice_cmp};
    ghost use Rattle.std.specs.Ordering.{nat_cmp};
    ghost use Rattle.name_index.specs.Names.{place_of};

    ghost Value = { List (List ℕ) };

    ghost view = { λ n. n.names.items };

    ghost invariant = { λ n. (name : List ℕ) → get_by (λ key. slice_cmp nat_cmp name key.items) n.places ≡ place_of name n.names.items };
}

impl NameIndex {
    /// No names; more grow in this allocator.
    pub fn new(alloc: Global) -> NameIndex
        ensures { result ≡ [] }
    {
        NameIndex {
            names: Vec::new(alloc),
            places: BTreeMap::new(alloc),
        }
    }

    pub fn len(&self) -> usize
        ensures len { result ≡ length self.now }
        ensures bound { result ≤ 9223372036854775807 }
    {
        self.names.len()
    }

    /// The first place at which this name stands.
    pub fn place_of(&self, name: &[u8]) -> Option<usize>
        ensures place { result ≡ place_of name.now self.now }
        ensures bound { IfSome result (λ place. place ≤ 9223372036854775807) }
    {
        self.places.get(name).copied()
    }

    /// Whether this name is one of them.
    #[tactic(auto, using(crate::proofs::IndexLaws::among))]
    pub fn has(&self, name: &[u8]) -> bool
        ensures { result ≡ list_any (bytes_eq name.now) self.now }
    {
        self.place_of(name).is_some()
    }

    /// Adds a name at the end. After `Memory` the names are as before.
    pub fn push(&mut self, alloc: Global, name: &Text) -> Result<(), Memory>
        ensures ok { OnOk result (self.new ≡ self.old ++ name.now ∷ []) }
        ensures err { OnErr result (self.new ≡ self.old) }
    {
        let text = name.copy(alloc)?;
        if self.places.contains_key(name.as_slice()) {
            return Ok(self.names.push(text)?);
        }
        let key = Vec::from_slice(alloc, name.as_slice())?;
        self.names.push(text)?;
        let place = self.names.len() - 1;
        match self.places.insert(key, place) {
            Ok(_) => Ok(()),
            Err(_) => {
                self.names.pop();
                Err(Memory)
            }
        }
    }

    /// Takes the last name away.
    fn pop(&mut self)
        ensures { self.new ≡ take (length self.old - 1) self.old }
    {
        let Some(name) = self.names.pop() else {
            return;
        };
        if self.places.get(name.as_slice()).copied() == Some(self.names.len()) {
            self.places.remove(name.as_slice());
        }
    }

    /// Forgets the names past this many, in time of those forgotten.
    pub fn truncate(&mut self, len: usize)
        ensures { self.new ≡ take len self.old }
    {
        'names: while len < self.names.len() {
            self.pop();
        }
    }
}
