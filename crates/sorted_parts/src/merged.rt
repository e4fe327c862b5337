ghost use Rattle.std.specs.Prelude.{◌≡◌, IfOk};
ghost use Rattle.std.specs.List.{AllByRecursion};
ghost use Rattle.hal_base.specs.Order.{record_cmp};
ghost use Rattle.hal_base.specs.Sorted.{Ascending, sorted};
ghost use Rattle.plain_job.specs.Chain.{together};

use hal_base::{Memory, Parts, Record, Records, SortedStream, sort_rows};
use std::alloc::Global;
use std::collections::VecDeque;
use std::marker::Model;

/// Records in order, handed out from the front.
#[derive(Drop)]
pub struct Merged {
    rows: VecDeque<Record>,
}

impl Model for Merged {
    ghost use Rattle.std.specs.Prelude.{List};
    ghost use Rattle.hal_base.specs.declared.record.Record.{Record as Row};
    ghost use Rattle.hal_base.specs.Order.{record_cmp};
    ghost use Rattle.hal_base.specs.Sorted.{Ascending};

    ghost Value = { List Row };

    ghost view = { λ m. m.rows.items };

    ghost invariant = { λ m. Ascending record_cmp m.rows.items };
}

impl Merged {
    fn new(rows: Records) -> Merged
        requires { Ascending record_cmp rows }
        ensures { result ≡ rows }
    {
        Merged {
            rows: VecDeque::from(rows.into_vec()),
        }
    }
}

impl SortedStream for Merged {
    ghost rows = { λ m. m };

    fn left(&self) -> u64 {
        self.rows.len() as u64
    }

    fn peek(&self) -> Option<&Record> {
        self.rows.front()
    }

    fn next(&mut self, _alloc: Global) -> Result<Option<Record>, Memory> {
        Ok(self.rows.pop_front())
    }
}

/// All records of the sections in order. Each section is in order already.
/// docs/SEMANTICS.md, "Parts".
pub fn merge(alloc: Global, sections: Parts) -> Result<Merged, Memory>
    requires sorted { AllByRecursion (Ascending record_cmp) sections }
    ensures { IfOk result (λ merged. merged ≡ sorted record_cmp (together sections)) }
{
    let rows = in_order(alloc, sections)?;
    Ok(Merged::new(rows))
}

fn in_order(alloc: Global, sections: Parts) -> Result<Records, Memory>
    requires { AllByRecursion (Ascending record_cmp) sections }
    ensures { IfOk result (λ rows. rows ≡ sorted record_cmp (together sections)) }
{
    // One section alone is in order as it stands.
    let alone = sections.len() <= 1;
    let rows = joined(alloc, sections)?;
    if alone { Ok(rows) } else { Ok(sort_rows(rows)) }
}

/// The sections, one after another, in the memory of the first.
fn joined(alloc: Global, sections: Parts) -> Result<Records, Memory>
    ensures { IfOk result (λ rows. rows ≡ together sections) }
{
    let mut sections = sections.into_vec().into_iter();
    let mut all = match sections.next() {
        Some(first) => first,
        None => Records::new(alloc),
    };
    'sections: for mut rows in sections {
        all.append(&mut rows)?;
    }
    Ok(all)
}
