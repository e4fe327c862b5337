ghost use Rattle.std.specs.Prelude.{◌≡◌, [], ◌∷◌, ◌++◌, ◌<◌, length, slice_get, take, IfOk, OnOk, OnErr, OnSome};
ghost use Rattle.std.specs.Option.{option_copied};

use crate::memory::Memory;
use std::alloc::Global;
use std::marker::Model;

/// A value of which an equal one can be made.
pub trait CopyIn: Sized {
    fn copy(&self, alloc: Global) -> Result<Self, Memory>
        ensures { IfOk result (λ copied. copied ≡ self.now) };
}

impl CopyIn for u32 {
    fn copy(&self, _alloc: Global) -> Result<u32, Memory> {
        Ok(*self)
    }
}

/// A growing list, which contracts see as the list of its items.
#[derive(Drop)]
pub struct Items<T> {
    items: Vec<T>,
}

impl<T> Model for Items<T> {
    ghost use Rattle.std.specs.Prelude.{List};
    ghost use Rattle.std.specs.Coded.{coded_list};

    ghost Value = { List T };

    ghost coded = { coded_list T.code };

    ghost view = { λ it. it.items.items };
}

impl<T> Items<T> {
    /// An empty list, which grows in this allocator.
    pub fn new(alloc: Global) -> Items<T>
        ensures { result ≡ [] }
    {
        Items {
            items: Vec::new(alloc),
        }
    }

    /// An empty list with room for this many items.
    pub fn with_capacity(alloc: Global, capacity: usize) -> Result<Items<T>, Memory>
        ensures { IfOk result (λ list. list ≡ []) }
    {
        Ok(Items {
            items: Vec::with_capacity(alloc, capacity)?,
        })
    }

    pub fn from_vec(items: Vec<T>) -> Items<T>
        ensures { result ≡ items.items }
    {
        Items { items }
    }

    pub fn into_vec(self) -> Vec<T>
        ensures { result.items ≡ self }
    {
        self.items
    }

    pub fn as_slice(&self) -> &[T]
        ensures { result.now ≡ self.now }
    {
        self.items.as_slice()
    }

    pub fn len(&self) -> usize
        ensures { result ≡ length self.now }
    {
        self.items.len()
    }

    pub fn get(&self, at: usize) -> Option<&T>
        ensures value { option_copied result ≡ slice_get self.now at }
        ensures within { OnSome result (at < length self.now) }
    {
        self.items.get(at)
    }
}

impl<T: Drop> Items<T> {
    /// Adds an item at the end. After `Memory` the list is as before.
    pub fn push(&mut self, item: T) -> Result<(), Memory>
        ensures ok { OnOk result (self.new ≡ self.old ++ item ∷ []) }
        ensures err { OnErr result (self.new ≡ self.old) }
    {
        self.items.push(item).map_err(|_| Memory)
    }

    /// Drops what stands past this many items.
    pub fn truncate(&mut self, len: usize)
        ensures { self.new ≡ take len self.old }
    {
        self.items.truncate(len);
    }

    /// Moves the items of another list to the end. After `Memory` both lists are as before.
    pub fn append(&mut self, others: &mut Items<T>) -> Result<(), Memory>
        ensures ok { OnOk result ((self.new ≡ self.old ++ others.old) × (others.new ≡ [])) }
        ensures err { OnErr result ((self.new ≡ self.old) × (others.new ≡ others.old)) }
    {
        Ok(self.items.append(&mut others.items)?)
    }
}

impl<T: CopyIn + Drop> CopyIn for Items<T> {
    fn copy(&self, alloc: Global) -> Result<Items<T>, Memory> {
        let mut copied = Items::with_capacity(alloc, self.len())?;
        for item in self.items.as_slice() {
            copied.push(item.copy(alloc)?)?;
        }
        Ok(copied)
    }
}
