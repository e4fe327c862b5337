ghost use Rattle.std.specs.Prelude.{◌≡◌, ℕ, ◌∷◌, [], List, IfOk, OnErr, MatchOption, length, slice_get, min};
ghost use Rattle.std.specs.Option.{option_copied};
ghost use Rattle.hal_base.specs.declared.record.Record.{Record};
ghost use Rattle.hal_base.specs.Order.{record_cmp};
ghost use Rattle.hal_base.specs.Sorted.{Ascending};

use crate::items::CopyIn;
use crate::memory::Memory;
use crate::record::Record;
use std::alloc::Global;
use std::marker::Model;

/// Records in order, handed out one by one.
pub trait SortedStream {
    /// The records left.
    ghost rows: { Self → List Record };

    /// The number of records left, or the greatest `u64` where there are more.
    fn left(&self) -> u64
        ensures { result ≡ min (length (rows self.now)) u64.MAX };

    /// The first of the records left. `None` exactly where nothing is left.
    fn peek(&self) -> Option<&Record>
        ensures first { option_copied result ≡ slice_get (rows self.now) 0 }
        ensures sorted { Ascending record_cmp (rows self.now) };

    /// Takes the first of the records left. `None` exactly where nothing is left; after `Memory` the
    /// records left are as before.
    fn next(&mut self, alloc: Global) -> Result<Option<Record>, Memory>
        ensures taken { IfOk result (λ first. MatchOption first ((rows self.old ≡ []) × (rows self.new ≡ [])) (λ row. rows self.old ≡ row ∷ rows self.new)) }
        ensures unchanged { OnErr result (rows self.new ≡ rows self.old) };
}

/// Records in order, which are only lent, handed out from the front. Each is copied, since others may
/// read it again.
#[derive(Drop)]
pub struct SortedSlice<'a> {
    rows: &'a [Record],
}

impl<'a> Model for SortedSlice<'a> {
    ghost use Rattle.std.specs.Prelude.{List};
    ghost use Rattle.hal_base.specs.declared.record.Record.{Record as Row};
    ghost use Rattle.hal_base.specs.Order.{record_cmp};
    ghost use Rattle.hal_base.specs.Sorted.{Ascending};

    ghost Value = { List Row };

    ghost view = { λ s. s.rows.now };

    ghost invariant = { λ s. Ascending record_cmp s.rows.now };
}

impl<'a> SortedSlice<'a> {
    /// A stream over records that stand in order, least first.
    pub fn new(rows: &'a [Record]) -> SortedSlice<'a>
        requires { Ascending record_cmp rows.now }
        ensures { result ≡ rows.now }
    {
        SortedSlice { rows }
    }
}

impl<'a> SortedStream for SortedSlice<'a> {
    ghost rows = { λ s. s };

    fn left(&self) -> u64 {
        self.rows.len() as u64
    }

    fn peek(&self) -> Option<&Record> {
        self.rows.first()
    }

    fn next(&mut self, alloc: Global) -> Result<Option<Record>, Memory> {
        let Some((first, others)) = self.rows.split_first() else {
            return Ok(None);
        };
        let row = first.copy(alloc)?;
        self.rows = others;
        Ok(Some(row))
    }
}
