use hal_base::{Fields, Group, Groups, Items, Memory, Value};
use std::alloc::Global;

/// A key, and its groups in each of the two steps.
#[derive(Drop)]
pub struct Case {
    pub key: Value,
    share: Groups,
    total: Groups,
}

impl Case {
    /// The groups of the first step, or of the second.
    pub fn groups(&self, step: u32) -> &Groups {
        if step == 1 { &self.share } else { &self.total }
    }
}

/// This many keys with their groups.
pub fn cases(alloc: Global, keys: u16) -> Result<Items<Case>, Memory> {
    let mut cases = Items::with_capacity(alloc, usize::from(keys))?;
    for key in 0..keys {
        cases.push(case_of(alloc, i64::from(key))?)?;
    }
    Ok(cases)
}

/// In the first step a rank and four links, in the second four numbers.
fn case_of(alloc: Global, key: i64) -> Result<Case, Memory> {
    let rank = key.saturating_mul(7919).saturating_add(150_000);
    let mut share = Groups::new(alloc);
    share.push(group(alloc, rank, 1)?)?;
    share.push(group(alloc, key, 4)?)?;
    let mut total = Groups::new(alloc);
    total.push(group(alloc, rank, 4)?)?;
    Ok(Case {
        key: Value::Int(key),
        share,
        total,
    })
}

/// So many numbers from one on, in the order of a stream.
fn group(alloc: Global, first: i64, count: u8) -> Result<Group, Memory> {
    let mut group = Group::new(alloc);
    for more in 0..count {
        let mut fields = Fields::new(alloc);
        fields.push(Value::Int(first.saturating_add(i64::from(more))))?;
        group.push(fields)?;
    }
    Ok(group)
}
