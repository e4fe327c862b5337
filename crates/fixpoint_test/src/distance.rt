ghost use Rattle.std.specs.Prelude.{◌≡◌, map, min, sum, IfOk};
ghost use Rattle.group_reduce.specs.Groups.{keyed_groups};
ghost use Rattle.plain_job.specs.Distances.{distance_by};
ghost use Rattle.fixpoint_test.specs.steps.InOrder.{far_of};

use crate::in_order::{copy_in_order, stream_in_order};
use group_reduce::{KeyGroups, next_groups};
use hal_base::{Functions, Memory, Records, SortedSlice, SortedStream};
use std::alloc::Global;

/// The greatest distance, at which sums stop.
const GREATEST: u64 = i64::MAX as u64;

/// How far a part of an output is from the same part of the round before.
/// docs/SEMANTICS.md, "Distance and end".
pub fn part_distance<F: Functions>(
    alloc: Global,
    functions: &F,
    old: &Records,
    new: &Records,
) -> Result<u64, Memory>
    ensures { IfOk result (λ far. far ≡ distance_by (F.meaning functions.now).distance old.now new.now) }
{
    let old_copy = copy_in_order(alloc, old)?;
    let new_copy = copy_in_order(alloc, new)?;
    let old = stream_in_order(old, &old_copy);
    let new = stream_in_order(new, &new_copy);
    distance_in_order(alloc, functions, old, new)
}

fn distance_in_order<'a, F: Functions>(
    alloc: Global,
    functions: &F,
    old: SortedSlice<'a>,
    new: SortedSlice<'a>,
) -> Result<u64, Memory>
    ensures { IfOk result (λ far. far ≡ distance_by (F.meaning functions.now).distance old.entry new.entry) }
{
    let mut streams = [old, new];
    keys_distance(alloc, functions, &mut streams)
}

/// The sum over the keys that stand in the streams.
fn keys_distance<F: Functions, S: SortedStream>(
    alloc: Global,
    functions: &F,
    streams: &mut [S],
) -> Result<u64, Memory>
    ensures { IfOk result (λ far. far ≡ min (sum (map (far_of (F.meaning functions.now).distance) (keyed_groups (map S.rows streams.old)))) 9223372036854775807) }
{
    let mut total: u64 = 0;
    'keys: while let Some(next) = next_groups(alloc, streams)? {
        let far = key_distance(alloc, functions, next)?;
        total = total.saturating_add(far).min(GREATEST);
    }
    Ok(total)
}

/// How far the two groups of a key are from each other.
fn key_distance<F: Functions>(alloc: Global, functions: &F, next: KeyGroups) -> Result<u64, Memory>
    ensures { IfOk result (λ far. far ≡ far_of (F.meaning functions.now).distance next) }
{
    match next.groups.as_slice() {
        [old, new] => functions.distance(alloc, &next.key, old, new),
        _ => Ok(0),
    }
}

/// The sum of the parts' distances, up to the greatest number.
/// docs/SEMANTICS.md, "Distance and end".
pub fn global_distance(parts: &[u64]) -> u64
    ensures { result ≡ min (sum parts.now) 9223372036854775807 }
{
    let mut total: u64 = 0;
    'parts: for part in parts {
        total = total.saturating_add(*part).min(GREATEST);
    }
    total
}
