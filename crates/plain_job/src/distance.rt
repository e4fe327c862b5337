ghost use Rattle.std.specs.Prelude.{◌≡◌, ◌∷◌, [], IfOk};
ghost use Rattle.plain_job.specs.Distances.{distance, key_distance};
ghost use Rattle.plain_job.specs.Job.{group, keys};

use crate::plain::{group_of, keys_of};
use hal_base::{CopyIn, Functions, Items, Memory, Parts, Records, Shape, Value};
use std::alloc::Global;

/// The greatest distance, at which sums stop.
const GREATEST: u64 = i64::MAX as u64;

/// How far an output is from that of the round before.
pub(crate) fn distance_of<F: Functions>(
    alloc: Global,
    functions: &F,
    shape: &Shape,
    old: &Records,
    new: &Records,
) -> Result<u64, Memory>
    ensures { IfOk result (λ found. found ≡ distance (F.meaning functions.now) shape.now old.now new.now) }
{
    let all = keys_of_two(alloc, old, new)?;
    let mut total: u64 = 0;
    'keys: for key in all.as_slice() {
        let one = distance_at(alloc, functions, shape.exact, key, old, new)?;
        total = total.saturating_add(one).min(GREATEST);
    }
    Ok(total)
}

fn keys_of_two(alloc: Global, old: &Records, new: &Records) -> Result<Items<Value>, Memory>
    ensures { IfOk result (λ found. found ≡ keys (old.now ∷ new.now ∷ [])) }
{
    let mut outputs = Parts::new(alloc);
    outputs.push(old.copy(alloc)?)?;
    outputs.push(new.copy(alloc)?)?;
    keys_of(alloc, &outputs)
}

/// How far the field lists of a key are from those of the round before.
fn distance_at<F: Functions>(
    alloc: Global,
    functions: &F,
    exact: bool,
    key: &Value,
    old: &Records,
    new: &Records,
) -> Result<u64, Memory>
    ensures { IfOk result (λ found. found ≡ key_distance (F.meaning functions.now) exact key.now (group old.now key.now) (group new.now key.now)) }
{
    let old = group_of(alloc, old, key)?;
    let new = group_of(alloc, new, key)?;
    if !exact {
        return functions.distance(alloc, key, &old, &new);
    }
    if old.as_slice().cmp(new.as_slice()).is_eq() {
        Ok(0)
    } else {
        Ok(1)
    }
}
