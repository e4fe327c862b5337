ghost use Rattle.std.specs.Prelude.{◌≡◌, ◌++◌, ◌∷◌, [], map, OnOk, OnErr};
ghost use Rattle.plain_job.specs.Predefined as predefined;
ghost use Rattle.predefined_functions.specs.steps.Extended.{Extends};

use crate::hops::push_hops;
use crate::least_fields::least_fields;
use hal_base::{CopyIn, Fields, Group, Groups, Memory, Record, Records, Value};
use std::alloc::Global;

/// Adds the record as it is. After `Memory` `out` is as before.
pub fn same(alloc: Global, row: &Record, out: &mut Records) -> Result<(), Memory>
    ensures appended { OnOk result (out.new ≡ out.old ++ predefined.same row.now) }
    ensures unchanged { OnErr result (out.new ≡ out.old) }
{
    out.push(row.copy(alloc)?)
}

/// Adds the key with the least field list of all groups, if there is one. After `Memory` `out` is as
/// before.
pub fn least(alloc: Global, key: &Value, groups: &Groups, out: &mut Records) -> Result<(), Memory>
    ensures appended { OnOk result (out.new ≡ out.old ++ predefined.least key.now groups.now) }
    ensures unchanged { OnErr result (out.new ≡ out.old) }
{
    match least_fields(groups.as_slice()) {
        None => Ok(()),
        Some(fields) => push_row(alloc, key, fields, out),
    }
}

/// Adds the key with each field list of each group, groups in order. After `Memory` `out` is as
/// before.
#[tactic(auto, using(crate::proofs::Extending::extends_back))]
pub fn every(alloc: Global, key: &Value, groups: &Groups, out: &mut Records) -> Result<(), Memory>
    ensures appended { OnOk result (out.new ≡ out.old ++ predefined.every key.now groups.now) }
    ensures unchanged { OnErr result (out.new ≡ out.old) }
{
    let before = out.len();
    let pushed = push_every(alloc, key, groups.as_slice(), out);
    if pushed.is_err() {
        out.truncate(before);
    }
    pushed
}

/// Adds, for each number of the first group and each field of the second, the record of that field as
/// key and the next number. Adds nothing where there are not two groups. After `Memory` `out` is as
/// before.
#[tactic(auto, using(crate::proofs::Extending::extends_back))]
pub fn hop(alloc: Global, key: &Value, groups: &Groups, out: &mut Records) -> Result<(), Memory>
    ensures appended { OnOk result (out.new ≡ out.old ++ predefined.hop key.now groups.now) }
    ensures unchanged { OnErr result (out.new ≡ out.old) }
{
    let before = out.len();
    let pushed = push_hops(alloc, key, groups.as_slice(), out);
    if pushed.is_err() {
        out.truncate(before);
    }
    pushed
}

#[tactic(auto, using(crate::proofs::Extending::extends_same, crate::proofs::Extending::extends_by, crate::proofs::Extending::extends_twice))]
fn push_every(alloc: Global, key: &Value, groups: &[Group], out: &mut Records) -> Result<(), Memory>
    ensures appended { OnOk result (out.new ≡ out.old ++ predefined.every key.now groups.now) }
    ensures kept { Extends out.old out.new }
{
    'groups: for group in groups {
        push_rows(alloc, key, group.as_slice(), out)?;
    }
    Ok(())
}

#[tactic(auto, using(crate::proofs::Extending::extends_same, crate::proofs::Extending::extends_by, crate::proofs::Extending::extends_twice))]
fn push_rows(alloc: Global, key: &Value, group: &[Fields], out: &mut Records) -> Result<(), Memory>
    ensures appended { OnOk result (out.new ≡ out.old ++ map (λ fields. predefined.made key.now fields) group.now) }
    ensures kept { Extends out.old out.new }
{
    'group: for fields in group {
        push_row(alloc, key, fields, out)?;
    }
    Ok(())
}

pub(crate) fn push_row(
    alloc: Global,
    key: &Value,
    fields: &Fields,
    out: &mut Records,
) -> Result<(), Memory>
    ensures appended { OnOk result (out.new ≡ out.old ++ predefined.made key.now fields.now ∷ []) }
    ensures unchanged { OnErr result (out.new ≡ out.old) }
{
    let key = key.copy(alloc)?;
    let fields = fields.copy(alloc)?;
    out.push(Record { key, fields })
}
