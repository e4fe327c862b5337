ghost use Rattle.std.specs.Prelude.{◌≡◌, refl, ◌<◌, ◌≤◌, List, [], ◌∷◌, ◌++◌, length, slice_get, IfOk, OnErr, OnOk};
ghost use Rattle.std.specs.Option.{option_copied};
ghost use Rattle.std.specs.Ordering.{as_partial_cmp, eq_by_cmp};
ghost use Rattle.std.specs.Cmp.{eq_by_cmp_equiv, partial_equiv_from_equiv, partial_order_from_agreeing_total};
ghost use Rattle.std.specs.Cmp.Lexicographic.{slice_cmp};
ghost use Rattle.hal_base.specs.Laws.{fields_cmp_total};
ghost use Rattle.hal_base.specs.Order.{value_cmp};

use crate::items::CopyIn;
use crate::memory::Memory;
use crate::value::{Kind, Value};
use smallvec::SmallVec;
use std::alloc::Global;
use std::cmp::Ordering;
use std::marker::Model;

/// The fields of a record past its key: at most seven values, of which the first needs no allocation.
#[derive(Drop)]
pub struct Fields {
    items: SmallVec<Value, 1>,
}

impl Model for Fields {
    ghost use Rattle.std.specs.Prelude.{List, ◌≤◌, length};
    ghost use Rattle.hal_base.specs.declared.value.Value.{Value as Cell};

    ghost Value = { List Cell };

    ghost view = { λ f. f.items.items };

    ghost invariant = { λ f. length f.items.items ≤ 7 };
}

impl Fields {
    pub fn new(alloc: Global) -> Fields
        ensures { result ≡ [] }
    {
        Fields {
            items: SmallVec::new(alloc),
        }
    }

    pub fn len(&self) -> usize
        ensures len { result ≡ length self.now }
        ensures few { length self.now ≤ 7 }
    {
        self.items.len()
    }

    pub fn get(&self, at: usize) -> Option<&Value>
        ensures { option_copied result ≡ slice_get self.now at }
    {
        self.items.as_slice().get(at)
    }

    pub fn as_slice(&self) -> &[Value]
        ensures value { result.now ≡ self.now }
        ensures few { length self.now ≤ 7 }
    {
        self.items.as_slice()
    }

    /// Adds a value at the end. After `Memory` the fields are as before.
    pub fn push(&mut self, value: Value) -> Result<(), Memory>
        requires { length self.old < 7 }
        ensures pushed { OnOk result (self.new ≡ self.old ++ value ∷ []) }
        ensures unchanged { OnErr result (self.new ≡ self.old) }
    {
        self.items.push(value).map_err(|_| Memory)
    }

    /// From left to right.
    pub fn compare(&self, other: &Fields) -> Ordering
        ensures { result ≡ slice_cmp value_cmp self.now other.now }
    {
        self.items.as_slice().cmp(other.items.as_slice())
    }
}

impl PartialEq for Fields {
    ghost eq = { eq_by_cmp (slice_cmp value_cmp) };

    fn eq(&self, other: &Fields) -> bool {
        self.compare(other).is_eq()
    }

    ghost laws = { partial_equiv_from_equiv (eq_by_cmp_equiv fields_cmp_total) };
}

impl Eq for Fields {
    ghost laws = { eq_by_cmp_equiv fields_cmp_total };
}

impl PartialOrd for Fields {
    ghost partial_cmp = { as_partial_cmp (slice_cmp value_cmp) };

    fn partial_cmp(&self, other: &Fields) -> Option<Ordering> {
        Some(self.compare(other))
    }

    ghost laws = { partial_order_from_agreeing_total (slice_cmp value_cmp) fields_cmp_total (λ _ _. refl) (λ _ _. refl) };
}

impl Ord for Fields {
    ghost cmp = { slice_cmp value_cmp };

    fn cmp(&self, other: &Fields) -> Ordering {
        self.compare(other)
    }

    ghost total = { fields_cmp_total };

    ghost matches_partial_cmp = { λ _ _. refl };

    ghost matches_eq = { λ _ _. refl };
}

impl CopyIn for Fields {
    fn copy(&self, alloc: Global) -> Result<Fields, Memory> {
        let mut items = SmallVec::new(alloc);
        for value in self.items.as_slice() {
            items.push(value.copy(alloc)?)?;
        }
        Ok(Fields { items })
    }
}

/// The kinds of a record's fields, at most seven.
#[derive(Drop)]
pub struct Kinds {
    items: Vec<Kind>,
}

impl Model for Kinds {
    ghost use Rattle.std.specs.Prelude.{List, ◌≤◌, length};
    ghost use Rattle.hal_base.specs.declared.value.Kind.{Kind as Sort};

    ghost Value = { List Sort };

    ghost view = { λ k. k.items.items };

    ghost invariant = { λ k. length k.items.items ≤ 7 };
}

impl Kinds {
    pub fn new(alloc: Global) -> Kinds
        ensures { result ≡ [] }
    {
        Kinds {
            items: Vec::new(alloc),
        }
    }

    pub fn len(&self) -> usize
        ensures len { result ≡ length self.now }
        ensures few { length self.now ≤ 7 }
    {
        self.items.len()
    }

    pub fn get(&self, at: usize) -> Option<&Kind>
        ensures { option_copied result ≡ slice_get self.now at }
    {
        self.items.get(at)
    }

    pub fn as_slice(&self) -> &[Kind]
        ensures value { result.now ≡ self.now }
        ensures few { length self.now ≤ 7 }
    {
        self.items.as_slice()
    }

    /// Adds a kind at the end. After `Memory` the kinds are as before.
    pub fn push(&mut self, kind: Kind) -> Result<(), Memory>
        requires { length self.old < 7 }
        ensures pushed { OnOk result (self.new ≡ self.old ++ kind ∷ []) }
        ensures unchanged { OnErr result (self.new ≡ self.old) }
    {
        self.items.push(kind).map_err(|_| Memory)
    }
}

impl CopyIn for Kinds {
    fn copy(&self, alloc: Global) -> Result<Kinds, Memory> {
        Ok(Kinds {
            items: Vec::from_slice(alloc, self.items.as_slice())?,
        })
    }
}

/// The kinds of the records of a table.
#[derive(Drop)]
pub struct Schema {
    pub key: Kind,
    pub fields: Kinds,
}

impl CopyIn for Schema {
    fn copy(&self, alloc: Global) -> Result<Schema, Memory> {
        let fields = self.fields.copy(alloc)?;
        Ok(Schema {
            key: self.key,
            fields,
        })
    }
}
