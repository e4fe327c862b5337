ghost use Rattle.std.specs.Prelude.{◌≡◌, ◌≤◌, length, IfNone, IfSome, OnOk};
ghost use Rattle.std.specs.Cmp.Lexicographic.{slice_cmp};
ghost use Rattle.std.specs.List.{insert};
ghost use Rattle.hal_base.specs.Order.{value_cmp};
ghost use Rattle.hal_base.specs.Sorted.{placed, joined};

use hal_base::{Fields, Memory, Value, compare};
use std::cmp::Ordering;

/// Inserts a field list in front of the first that is not below it.
pub(crate) fn place(group: &mut Vec<Fields>, fields: Fields) -> Result<(), Memory>
    ensures { OnOk result (group.new.items ≡ placed (slice_cmp value_cmp) fields group.old.items) }
{
    let at = place_of(group.as_slice(), &fields);
    group.insert(at, fields)?;
    Ok(())
}

fn place_of(group: &[Fields], fields: &Fields) -> usize
    ensures within { result ≤ length group.now }
    ensures place { placed (slice_cmp value_cmp) fields.now group.now ≡ insert group.now result fields.now }
{
    'others: for (at, other) in group.iter().enumerate() {
        if !fields.compare(other).is_gt() {
            return at;
        }
    }
    group.len()
}

/// Inserts a key in its place among ascending keys, unless it stands there.
pub(crate) fn join(keys: &mut Vec<Value>, key: Value) -> Result<(), Memory>
    ensures { OnOk result (keys.new.items ≡ joined value_cmp key keys.old.items) }
{
    if let Some(at) = free_place(keys.as_slice(), &key) {
        keys.insert(at, key)?;
    }
    Ok(())
}

/// The place of a key among ascending keys. `None` where it stands there.
fn free_place(keys: &[Value], key: &Value) -> Option<usize>
    ensures within { IfSome result (λ at. at ≤ length keys.now) }
    ensures place { IfSome result (λ at. joined value_cmp key.now keys.now ≡ insert keys.now at key.now) }
    ensures present { IfNone result (joined value_cmp key.now keys.now ≡ keys.now) }
{
    'others: for (at, other) in keys.iter().enumerate() {
        match compare(key, other) {
            Ordering::Less => return Some(at),
            Ordering::Equal => return None,
            Ordering::Greater => {}
        }
    }
    Some(keys.len())
}
