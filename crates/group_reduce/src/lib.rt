//! The grouped reduce over sorted streams.
#![tactic(auto)]

ghost use Rattle.std.specs.Prelude.{◌≡◌, [], ◌∷◌, ◌++◌, true, map, IfOk, OnOk, MatchOption};
ghost use Rattle.std.specs.Option.{option_copied};
ghost use Rattle.std.specs.List.{AllByRecursion};
ghost use Rattle.hal_base.specs.Order.{record_cmp};
ghost use Rattle.hal_base.specs.Sorted.{Ascending};
ghost use Rattle.plain_job.specs.Job.{job, fields_of, has_key};
ghost use Rattle.group_reduce.specs.steps.Front.{front, rest, least_key_of, starts};
ghost use Rattle.group_reduce.specs.Groups.{keyed_groups};

use hal_base::{
    CopyIn, Functions, Group, Groups, Memory, Record, Records, SortedStream, Value, compare,
};
use std::alloc::Global;

/// A key and its groups, one for each stream.
#[derive(Drop)]
pub struct KeyGroups {
    pub key: Value,
    pub groups: Groups,
}

/// What the reduce of this step emits for each key that stands in a stream, in ascending order of the
/// keys, with one group for each stream. It takes the records off the streams, one key at a time.
/// docs/SEMANTICS.md, "The plain job".
pub fn reduce_part<F: Functions, S: SortedStream>(
    alloc: Global,
    functions: &F,
    round: u32,
    step: u32,
    streams: &mut [S],
) -> Result<Records, Memory>
    ensures { IfOk result (λ out. out ≡ job ((F.meaning functions.now).reduce round step) (λ _. true) (map S.rows streams.old)) }
{
    let mut out = Records::new(alloc);
    'keys: while let Some(next) = next_groups(alloc, streams)? {
        reduce_key(alloc, functions, round, step, next, &mut out)?;
    }
    Ok(out)
}

/// Adds what reduce emits for a key and its groups.
fn reduce_key<F: Functions>(
    alloc: Global,
    functions: &F,
    round: u32,
    step: u32,
    next: KeyGroups,
    out: &mut Records,
) -> Result<(), Memory>
    ensures { OnOk result (out.new ≡ out.old ++ (F.meaning functions.now).reduce round step next.key next.groups) }
{
    functions.reduce(alloc, round, step, &next.key, &next.groups, out)
}

/// Takes the records with the least key off the streams. `None` exactly where nothing is left; after
/// `Memory` some of these records may be lost.
/// docs/SEMANTICS.md, "Streams, groups and keys".
pub fn next_groups<S: SortedStream>(
    alloc: Global,
    streams: &mut [S],
) -> Result<Option<KeyGroups>, Memory>
    ensures next { IfOk result (λ next. MatchOption next ((keyed_groups (map S.rows streams.old) ≡ []) × (keyed_groups (map S.rows streams.new) ≡ [])) (λ first. keyed_groups (map S.rows streams.old) ≡ first ∷ keyed_groups (map S.rows streams.new))) }
{
    match next_key(alloc, streams)? {
        None => Ok(None),
        Some(key) => {
            let groups = take_groups(alloc, streams, &key)?;
            Ok(Some(KeyGroups { key, groups }))
        }
    }
}

fn next_key<S: SortedStream>(alloc: Global, streams: &[S]) -> Result<Option<Value>, Memory>
    ensures key { IfOk result (λ key. key ≡ least_key_of None (map S.rows streams.now)) }
    ensures sorted { AllByRecursion (Ascending record_cmp) (map S.rows streams.now) }
{
    match least_key(streams) {
        None => Ok(None),
        Some(key) => {
            let copied = key.copy(alloc)?;
            Ok(Some(copied))
        }
    }
}

fn least_key<S: SortedStream>(streams: &[S]) -> Option<&Value>
    ensures key { option_copied result ≡ least_key_of None (map S.rows streams.now) }
    ensures sorted { AllByRecursion (Ascending record_cmp) (map S.rows streams.now) }
{
    let mut least: Option<&Value> = None;
    'heads: for stream in streams {
        if let Some(row) = stream.peek() {
            least = match least {
                Some(key) if compare(key, &row.key).is_le() => Some(key),
                _ => Some(&row.key),
            };
        }
    }
    least
}

/// Takes the records with this key from the front of each stream.
fn take_groups<S: SortedStream>(
    alloc: Global,
    streams: &mut [S],
    key: &Value,
) -> Result<Groups, Memory>
    ensures groups { IfOk result (λ groups. groups ≡ map (λ rows. map fields_of (front key.now rows)) (map S.rows streams.old)) }
    ensures rest { OnOk result (map S.rows streams.new ≡ map (rest key.now) (map S.rows streams.old)) }
{
    let mut groups = Groups::new(alloc);
    let mut at = 0;
    'streams: while at < streams.len() {
        let stream = &mut streams[at];
        groups.push(take_group(alloc, stream, key)?)?;
        at += 1;
    }
    Ok(groups)
}

fn take_group<S: SortedStream>(alloc: Global, stream: &mut S, key: &Value) -> Result<Group, Memory>
    ensures group { IfOk result (λ group. group ≡ map fields_of (front key.now (S.rows stream.old))) }
    ensures rest { OnOk result (S.rows stream.new ≡ rest key.now (S.rows stream.old)) }
{
    let mut group = Group::new(alloc);
    'rows: while starts_with(stream, key) {
        if let Some(row) = stream.next(alloc)? {
            let Record { key: _key, fields } = row;
            group.push(fields)?;
        }
    }
    Ok(group)
}

fn starts_with<S: SortedStream>(stream: &S, key: &Value) -> bool
    ensures { result ≡ starts key.now (S.rows stream.now) }
{
    match stream.peek() {
        Some(row) => compare(key, &row.key).is_eq(),
        None => false,
    }
}
