// Blocks: each vector, and what comes of it with a byte more, a byte less, and each byte changed; and tables that are cut.
ghost use Rattle.std.specs.Prelude.{◌≤◌};

use crate::samples::{again, schema_of};
use hal_base::{Memory, Schema};
use record_blocks::{cut, decode};
use std::alloc::Global;
use std::test::Fail;

/// The kinds of the key and of the fields, the block, and how many records it has.
const VECTORS: &[(u8, &[u8], &[u8], usize)] = &[
    (b'I', b"I", b"HLB1\x02II\x00\x00\x00\x00\x00\x00\x00\x00", 0),
    (
        b'I',
        b"I",
        b"HLB1\x02II\x00\x00\x00\x00\x00\x00\x00\x01\x00\x00\x00\x00\x00\x00\x00\x02\x00\x00\x00\x00\x00\x00\x00\x01",
        1,
    ),
    (
        b'T',
        b"",
        b"HLB1\x01T\x00\x00\x00\x00\x00\x00\x00\x01\x02ab",
        1,
    ),
    (
        b'I',
        b"",
        b"HLB1\x01I\x00\x00\x00\x00\x00\x00\x00\x01\xff\xff\xff\xff\xff\xff\xff\xff",
        1,
    ),
    (
        b'T',
        b"IT",
        b"HLB1\x03TIT\x00\x00\x00\x00\x00\x00\x00\x02\x01k\x80\x00\x00\x00\x00\x00\x00\x00\x00\x00\x7f\xff\xff\xff\xff\xff\xff\xff\x01~",
        2,
    ),
];

/// Heads that count more records than any bytes hold.
const TOO_MANY: &[&[u8]] = &[
    b"HLB1\x02II\xff\xff\xff\xff\xff\xff\xff\xff",
    b"HLB1\x02II\xff\xff\xff\xff\xff\xff\xff\xf0\x00\x00\x00\x00\x00\x00\x00\x02\x00\x00\x00\x00\x00\x00\x00\x01",
    b"HLB1\x02II\x10\x00\x00\x00\x00\x00\x00\x00\x00\x00\x00\x00\x00\x00\x00\x02\x00\x00\x00\x00\x00\x00\x00\x01",
];

/// How many records are decoded, `None` where the bytes are no block.
fn count_in(alloc: Global, bytes: &[u8], schema: &Schema) -> Result<Option<usize>, Memory> {
    match decode(alloc, bytes, schema)? {
        Some(rows) => Ok(Some(rows.len())),
        None => Ok(None),
    }
}

/// How many pieces of this size the records of a block are cut into, and how many records the last has.
fn pieces_of(
    alloc: Global,
    bytes: &[u8],
    schema: &Schema,
    size: u32,
) -> Result<(usize, usize), Memory>
    requires { 1 ≤ size }
{
    let Some(rows) = decode(alloc, bytes, schema)? else {
        return Ok((0, 0));
    };
    let pieces = cut(alloc, &rows, size)?;
    match pieces.as_slice().last() {
        Some(last) => Ok((pieces.len(), last.len())),
        None => Ok((0, 0)),
    }
}

/// Whether these bytes are encoded again of what is decoded of them, or nothing is decoded.
fn holds(alloc: Global, bytes: &[u8], schema: &Schema) -> Result<bool, Memory> {
    match again(alloc, bytes, schema)? {
        Some(same) => Ok(same.as_slice() == bytes),
        None => Ok(true),
    }
}

/// Whether the same holds where any one byte is changed in its lowest or its highest bit.
fn holds_changed(alloc: Global, bytes: &[u8], schema: &Schema) -> Result<bool, Memory> {
    let mut changed = Vec::from_slice(alloc, bytes)?;
    let mut all = true;
    for at in 0..bytes.len() {
        for bit in [1u8, 128] {
            if at < changed.len() {
                changed[at] ^= bit;
                all = all && holds(alloc, changed.as_slice(), schema)?;
                changed[at] ^= bit;
            }
        }
    }
    Ok(all)
}

#[test]
fn tables_are_cut(rt: HostRuntime) -> Result<(), Fail> {
    let alloc = rt.alloc();
    let numbers = schema_of(alloc, b'I', b"")?;
    let mut block = Vec::from_slice(alloc, b"HLB1\x01I\x00\x00\x00\x00\x00\x00\x00\x05")?;
    for number in 0..5u64 {
        block.extend_from_slice(&number.to_be_bytes())?;
    }
    for (size, count, last) in [
        (1, 5, 1),
        (2, 3, 1),
        (3, 2, 2),
        (5, 1, 5),
        (1_000_000, 1, 5),
    ] {
        assert!(rt; pieces_of(alloc, block.as_slice(), &numbers, size)? == (count, last));
    }
    let empty = b"HLB1\x01I\x00\x00\x00\x00\x00\x00\x00\x00";
    assert!(rt; pieces_of(alloc, empty, &numbers, 1)? == (0, 0));
    Ok(())
}

#[test]
fn blocks_are_read_and_written(rt: HostRuntime) -> Result<(), Fail> {
    let alloc = rt.alloc();
    for (key, fields, block, count) in VECTORS {
        let schema = schema_of(alloc, *key, fields)?;
        assert!(rt; count_in(alloc, block, &schema)? == Some(*count));
        assert!(rt; holds_changed(alloc, block, &schema)?);
        let mut longer = Vec::from_slice(alloc, block)?;
        longer.push(0)?;
        assert!(rt; count_in(alloc, longer.as_slice(), &schema)?.is_none());
        if let Some((_last, shorter)) = block.split_last() {
            assert!(rt; count_in(alloc, shorter, &schema)?.is_none());
        }
    }
    let pairs = schema_of(alloc, b'I', b"I")?;
    for block in TOO_MANY {
        assert!(rt; count_in(alloc, block, &pairs)?.is_none());
    }
    Ok(())
}
