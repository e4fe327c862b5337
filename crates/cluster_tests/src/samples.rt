// Schemas, and blocks that are decoded and encoded again.
ghost use Rattle.std.specs.Prelude.{◌≡◌, IfOk, IfSome};
ghost use Rattle.partition_shuffle.specs.SpillTexts.{FitSection};

use hal_base::{Kind, Kinds, Memory, Parts, Records, Schema};
use partition_shuffle::{encode_spill, section};
use record_blocks::{decode, encode};
use std::alloc::Global;

/// The schema of these letters, `I` for a number and anything else for a text, the key's first.
pub fn schema_of(alloc: Global, key: u8, fields: &[u8]) -> Result<Schema, Memory> {
    let mut kinds = Kinds::new(alloc);
    for letter in fields {
        if kinds.len() < 7 {
            kinds.push(kind_of(*letter))?;
        }
    }
    Ok(Schema {
        key: kind_of(key),
        fields: kinds,
    })
}

fn kind_of(letter: u8) -> Kind {
    if letter == b'I' {
        Kind::Int
    } else {
        Kind::Text
    }
}

/// The bytes of the records that are decoded of these, if there are any: the same bytes.
pub fn again(alloc: Global, bytes: &[u8], schema: &Schema) -> Result<Option<Vec<u8>>, Memory>
    ensures { IfOk result (λ found. IfSome found (λ same. same.items ≡ bytes.now)) }
{
    match decode(alloc, bytes, schema)? {
        Some(rows) => {
            let bytes = encode(alloc, &rows, schema)?;
            Ok(Some(bytes))
        }
        None => Ok(None),
    }
}

/// The bytes of the two parts that are read of these, if there are any.
pub fn spill_again(
    alloc: Global,
    bytes: &[u8],
    schema: &Schema,
) -> Result<Option<Vec<u8>>, Memory> {
    let Some(first) = section(alloc, bytes, 0, schema)? else {
        return Ok(None);
    };
    let Some(second) = section(alloc, bytes, 1, schema)? else {
        return Ok(None);
    };
    let spilled = spill_of_two(alloc, first, second, schema)?;
    Ok(Some(spilled))
}

/// The spill text of two parts.
fn spill_of_two(
    alloc: Global,
    first: Records,
    second: Records,
    schema: &Schema,
) -> Result<Vec<u8>, Memory>
    requires first { FitSection schema.now first }
    requires second { FitSection schema.now second }
{
    let mut parts = Parts::with_capacity(alloc, 2)?;
    parts.push(first)?;
    parts.push(second)?;
    encode_spill(alloc, &parts, schema)
}
