ghost use Rattle.std.specs.Prelude.{◌≡◌, ◌==◌, ◌++◌, map, IfOk, OnOk};
ghost use Rattle.std.specs.List.{flat_map};
ghost use Rattle.hal_base.specs.Order.{value_cmp};
ghost use Rattle.hal_base.specs.Sorted.{distinct};
ghost use Rattle.plain_job.specs.Chain.{part_out};
ghost use Rattle.plain_job.specs.Job.{stream, group, keys, key_of};

use crate::insertion::{join, place};
use hal_base::{CopyIn, Functions, Group, Groups, Items, Memory, Parts, Records, Value, compare};
use std::alloc::Global;

/// What the map of a source emits for the records, one after another.
pub fn plain_stream<F: Functions>(
    alloc: Global,
    functions: &F,
    round: u32,
    step: u32,
    source: u32,
    rows: &Records,
) -> Result<Records, Memory>
    ensures { IfOk result (λ out. out ≡ stream ((F.meaning functions.now).map round step source) rows.now) }
{
    let mut out = Records::with_capacity(alloc, rows.len())?;
    'rows: for row in rows.as_slice() {
        functions.map(alloc, round, step, source, row, &mut out)?;
    }
    Ok(out)
}

/// The field lists of the records with this key, in order, repeats kept.
pub fn group_of(alloc: Global, rows: &Records, key: &Value) -> Result<Group, Memory>
    ensures { IfOk result (λ found. found ≡ group rows.now key.now) }
{
    let all = rows.as_slice();
    let mut found = Vec::new(alloc);
    let mut at = all.len();
    'rows: while at > 0 {
        at -= 1;
        let row = &all[at];
        if compare(key, &row.key).is_eq() {
            place(&mut found, row.fields.copy(alloc)?)?;
        }
    }
    Ok(Group::from_vec(found))
}

/// Each key that stands in at least one stream, once, ascending.
pub fn keys_of(alloc: Global, streams: &Parts) -> Result<Items<Value>, Memory>
    ensures { IfOk result (λ found. found ≡ keys streams.now) }
{
    let mut all = Items::new(alloc);
    'streams: for rows in streams.as_slice() {
        append_keys(alloc, rows, &mut all)?;
    }
    distinct_keys(alloc, all.as_slice())
}

fn append_keys(alloc: Global, rows: &Records, out: &mut Items<Value>) -> Result<(), Memory>
    ensures { OnOk result (out.new ≡ out.old ++ map key_of rows.now) }
{
    'rows: for row in rows.as_slice() {
        out.push(row.key.copy(alloc)?)?;
    }
    Ok(())
}

fn distinct_keys(alloc: Global, all: &[Value]) -> Result<Items<Value>, Memory>
    ensures { IfOk result (λ found. found ≡ distinct value_cmp all.now) }
{
    let mut found = Vec::new(alloc);
    let mut at = all.len();
    'keys: while at > 0 {
        at -= 1;
        join(&mut found, all[at].copy(alloc)?)?;
    }
    Ok(Items::from_vec(found))
}

/// A part of what a step emits: what its reduce emits for the keys of the part, ascending.
pub fn plain_part<F: Functions>(
    alloc: Global,
    functions: &F,
    round: u32,
    step: u32,
    streams: &Parts,
    part: u32,
) -> Result<Records, Memory>
    ensures { IfOk result (λ out. out ≡ part_out (F.meaning functions.now) round step streams.now part) }
{
    let all = keys_of(alloc, streams)?;
    let mut out = Records::new(alloc);
    'keys: for key in all.as_slice() {
        if is_in_part(alloc, functions, round, step, key, part)? {
            reduce_key(alloc, functions, round, step, streams, key, &mut out)?;
        }
    }
    Ok(out)
}

fn is_in_part<F: Functions>(
    alloc: Global,
    functions: &F,
    round: u32,
    step: u32,
    key: &Value,
    part: u32,
) -> Result<bool, Memory>
    ensures { IfOk result (λ is_in. is_in ≡ ((F.meaning functions.now).partition round step key.now == part)) }
{
    let number = functions.partition(alloc, round, step, key)?;
    Ok(number == part)
}

/// Adds what reduce emits for a key and its groups.
fn reduce_key<F: Functions>(
    alloc: Global,
    functions: &F,
    round: u32,
    step: u32,
    streams: &Parts,
    key: &Value,
    out: &mut Records,
) -> Result<(), Memory>
    ensures { OnOk result (out.new ≡ out.old ++ (F.meaning functions.now).reduce round step key.now (map (λ rows. group rows key.now) streams.now)) }
{
    let groups = groups_of(alloc, streams, key)?;
    functions.reduce(alloc, round, step, key, &groups, out)
}

/// The group of a key in each stream.
fn groups_of(alloc: Global, streams: &Parts, key: &Value) -> Result<Groups, Memory>
    ensures { IfOk result (λ groups. groups ≡ map (λ rows. group rows key.now) streams.now) }
{
    let mut groups = Groups::new(alloc);
    'streams: for rows in streams.as_slice() {
        groups.push(group_of(alloc, rows, key)?)?;
    }
    Ok(groups)
}
