ghost use Rattle.std.specs.Prelude.{◌≡◌, IfOk};
ghost use Rattle.plain_job.specs.Chain.{together};
ghost use Rattle.plain_job.specs.Distances.{distance_by};

use fixpoint_test::part_distance;
use hal_base::{Functions, Memory, Parts, Records, sort_rows};
use std::alloc::Global;

/// How far the functions tell that the new parts, taken together, are from the old ones. Parts may be in no order.
/// docs/CLUSTER.md, "Tasks".
pub fn test_value<F: Functions>(
    alloc: Global,
    functions: &F,
    old: Parts,
    new: Parts,
) -> Result<u64, Memory>
    ensures { IfOk result (λ far. far ≡ distance_by (F.meaning functions.now).distance (together old) (together new)) }
{
    // What is in order is compared with no copy of it.
    let old = sort_rows(joined(alloc, old)?);
    let new = sort_rows(joined(alloc, new)?);
    part_distance(alloc, functions, &old, &new)
}

/// The parts, one after another, in the memory of the first.
fn joined(alloc: Global, parts: Parts) -> Result<Records, Memory>
    ensures { IfOk result (λ rows. rows ≡ together parts) }
{
    let mut parts = parts.into_vec().into_iter();
    let mut all = match parts.next() {
        Some(first) => first,
        None => Records::new(alloc),
    };
    'parts: for mut rows in parts {
        all.append(&mut rows)?;
    }
    Ok(all)
}
