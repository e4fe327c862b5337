ghost use Rattle.std.specs.Prelude.{◌≡◌, IfOk};
ghost use Rattle.hal_base.specs.Order.{record_cmp};
ghost use Rattle.hal_base.specs.Sorted.{sorted};
ghost use Rattle.fixpoint_test.specs.steps.InOrder.{IsInOrder};

use hal_base::{CopyIn, Memory, Record, Records, SortedSlice, sort_rows};
use std::alloc::Global;

/// The records in order, as a stream. The copy is that of `copy_in_order`.
pub(crate) fn stream_in_order<'a>(rows: &'a Records, copy: &'a Option<Records>) -> SortedSlice<'a>
    requires { IsInOrder rows.now copy.now }
    ensures { result ≡ sorted record_cmp rows.now }
{
    SortedSlice::new(in_order(rows, copy))
}

fn in_order<'a>(rows: &'a Records, copy: &'a Option<Records>) -> &'a [Record]
    requires { IsInOrder rows.now copy.now }
    ensures { result.now ≡ sorted record_cmp rows.now }
{
    match copy {
        Some(copy) => copy.as_slice(),
        None => rows.as_slice(),
    }
}

/// A copy of the records in order. `None` where they are so already.
pub(crate) fn copy_in_order(alloc: Global, rows: &Records) -> Result<Option<Records>, Memory>
    ensures { IfOk result (IsInOrder rows.now) }
{
    if rows.as_slice().is_sorted() {
        return Ok(None);
    }
    let copy = rows.copy(alloc)?;
    Ok(Some(sort_rows(copy)))
}
