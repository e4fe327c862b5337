ghost use Rattle.std.specs.Prelude.{◌≡◌, refl};
ghost use Rattle.std.specs.Ordering.{as_partial_cmp, eq_by_cmp};
ghost use Rattle.std.specs.Cmp.{eq_by_cmp_equiv, partial_equiv_from_equiv, partial_order_from_agreeing_total};
ghost use Rattle.hal_base.specs.Laws.{record_cmp_total};
ghost use Rattle.hal_base.specs.Order.{record_cmp};
ghost use Rattle.hal_base.specs.Sorted.{sorted};

use crate::fields::Fields;
use crate::items::{CopyIn, Items};
use crate::memory::Memory;
use crate::value::{Value, compare};
use std::alloc::Global;
use std::cmp::Ordering;

/// A key and its fields.
#[derive(Drop)]
pub struct Record {
    pub key: Value,
    pub fields: Fields,
}

pub type Records = Items<Record>;

pub type Group = Items<Fields>;

pub type Groups = Items<Group>;

pub type Parts = Items<Records>;

pub type Tables = Items<Records>;

impl CopyIn for Record {
    fn copy(&self, alloc: Global) -> Result<Record, Memory> {
        let key = self.key.copy(alloc)?;
        let fields = self.fields.copy(alloc)?;
        Ok(Record { key, fields })
    }
}

/// By key, and then by the fields from left to right.
pub fn compare_rows(a: &Record, b: &Record) -> Ordering
    ensures { result ≡ record_cmp a.now b.now }
{
    // Most keys differ, and then the fields need not be looked at.
    match compare(&a.key, &b.key) {
        Ordering::Equal => a.fields.compare(&b.fields),
        unequal => unequal,
    }
}

/// The same records in order, in the memory that they have.
pub fn sort_rows(rows: Records) -> Records
    ensures { result ≡ sorted record_cmp rows }
{
    let mut rows = rows.into_vec();
    rows.sort_unstable();
    Records::from_vec(rows)
}

impl PartialEq for Record {
    ghost eq = { eq_by_cmp record_cmp };

    fn eq(&self, other: &Record) -> bool {
        compare_rows(self, other).is_eq()
    }

    ghost laws = { partial_equiv_from_equiv (eq_by_cmp_equiv record_cmp_total) };
}

impl Eq for Record {
    ghost laws = { eq_by_cmp_equiv record_cmp_total };
}

impl PartialOrd for Record {
    ghost partial_cmp = { as_partial_cmp record_cmp };

    fn partial_cmp(&self, other: &Record) -> Option<Ordering> {
        Some(compare_rows(self, other))
    }

    ghost laws = { partial_order_from_agreeing_total record_cmp record_cmp_total (λ _ _. refl) (λ _ _. refl) };
}

impl Ord for Record {
    ghost cmp = { record_cmp };

    fn cmp(&self, other: &Record) -> Ordering {
        compare_rows(self, other)
    }

    ghost total = { record_cmp_total };

    ghost matches_partial_cmp = { λ _ _. refl };

    ghost matches_eq = { λ _ _. refl };
}
