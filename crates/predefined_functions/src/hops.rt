ghost use Rattle.std.specs.Prelude.{◌≡◌, ◌++◌, OnOk, IfOk};
ghost use Rattle.std.specs.List.{flat_map};
ghost use Rattle.plain_job.specs.Predefined as predefined;
ghost use Rattle.predefined_functions.specs.steps.Extended.{Extends};

use crate::reduces::push_row;
use hal_base::{Fields, Group, Memory, Records, Value};
use std::alloc::Global;

/// The records of each number of the first of two groups and each field of the second.
#[tactic(auto, using(crate::proofs::Extending::extends_same))]
pub(crate) fn push_hops(
    alloc: Global,
    key: &Value,
    groups: &[Group],
    out: &mut Records,
) -> Result<(), Memory>
    ensures appended { OnOk result (out.new ≡ out.old ++ predefined.hop key.now groups.now) }
    ensures kept { Extends out.old out.new }
{
    let [distances, targets] = groups else {
        return Ok(());
    };
    push_each(alloc, distances.as_slice(), targets.as_slice(), out)
}

#[tactic(auto, using(crate::proofs::Extending::extends_same, crate::proofs::Extending::extends_by, crate::proofs::Extending::extends_twice))]
fn push_each(
    alloc: Global,
    distances: &[Fields],
    targets: &[Fields],
    out: &mut Records,
) -> Result<(), Memory>
    ensures appended { OnOk result (out.new ≡ out.old ++ flat_map (λ distance. flat_map (λ target. predefined.keyed target (predefined.next_of distance)) targets.now) distances.now) }
    ensures kept { Extends out.old out.new }
{
    'distances: for distance in distances {
        push_hop(alloc, distance.as_slice(), targets, out)?;
    }
    Ok(())
}

/// The records of one number and each field of the second group.
#[tactic(auto, using(crate::proofs::Extending::extends_same))]
fn push_hop(
    alloc: Global,
    distance: &[Value],
    targets: &[Fields],
    out: &mut Records,
) -> Result<(), Memory>
    ensures appended { OnOk result (out.new ≡ out.old ++ flat_map (λ target. predefined.keyed target (predefined.next_of distance.now)) targets.now) }
    ensures kept { Extends out.old out.new }
{
    let next = next_of(alloc, distance)?;
    push_keyed(alloc, targets, &next, out)
}

/// Adds, for each list that has a first field, the record of that field as key and these fields. After
/// `Memory` some of them may have been added.
#[tactic(auto, using(crate::proofs::Extending::extends_same, crate::proofs::Extending::extends_by, crate::proofs::Extending::extends_twice))]
pub fn push_keyed(
    alloc: Global,
    targets: &[Fields],
    next: &Fields,
    out: &mut Records,
) -> Result<(), Memory>
    ensures appended { OnOk result (out.new ≡ out.old ++ flat_map (λ target. predefined.keyed target next.now) targets.now) }
    ensures kept { Extends out.old out.new }
{
    'targets: for target in targets {
        if let Some(key) = target.get(0) {
            push_row(alloc, key, next, out)?;
        }
    }
    Ok(())
}

/// The next number, from a list of one number; nothing from any other list.
fn next_of(alloc: Global, fields: &[Value]) -> Result<Fields, Memory>
    ensures { IfOk result (λ next. next ≡ predefined.next_of fields.now) }
{
    let mut next = Fields::new(alloc);
    if let [Value::Int(number)] = fields {
        next.push(Value::Int(number.saturating_add(1)))?;
    }
    Ok(next)
}
