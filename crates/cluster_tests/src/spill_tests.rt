// Spills: a vector, and what comes of it with a byte more, a byte less, each byte changed, and sections out of order.
use crate::samples::{schema_of, spill_again};
use hal_base::{Memory, Schema};
use partition_shuffle::section;
use std::alloc::Global;
use std::test::Fail;

/// Two parts of two numbers: no record, and the records 2 1 and 2 3.
const TWO_PARTS: &[u8] =
    b"HLS1\x00\x02\x00\x00\x00\x00\x00\x00\x00\x0fHLB1\x02II\x00\x00\x00\x00\x00\x00\x00\x00\x00\x00\x00\x00\x00\x00\x00\x2fHLB1\x02II\x00\x00\x00\x00\x00\x00\x00\x02\x00\x00\x00\x00\x00\x00\x00\x02\x00\x00\x00\x00\x00\x00\x00\x01\x00\x00\x00\x00\x00\x00\x00\x02\x00\x00\x00\x00\x00\x00\x00\x03";

/// The place of the last byte of the first record in it, by which that record goes behind the second.
const FIRST_FIELD: usize = 67;

/// Spills with a section whose head, or whose length, counts more than any bytes hold.
const TOO_MANY: &[&[u8]] = &[
    b"HLS1\x00\x01\x00\x00\x00\x00\x00\x00\x00\x0fHLB1\x02II\xff\xff\xff\xff\xff\xff\xff\xff",
    b"HLS1\x00\x01\xff\xff\xff\xff\xff\xff\xff\xffHLB1\x02II\x00\x00\x00\x00\x00\x00\x00\x00",
    b"HLS1\xff\xff\x00\x00\x00\x00\x00\x00\x00\x0fHLB1\x02II\x00\x00\x00\x00\x00\x00\x00\x00",
];

/// How many records a part has, `None` where there is no such part.
fn count_in(
    alloc: Global,
    bytes: &[u8],
    part: u32,
    schema: &Schema,
) -> Result<Option<usize>, Memory> {
    match section(alloc, bytes, part, schema)? {
        Some(rows) => Ok(Some(rows.len())),
        None => Ok(None),
    }
}

/// Whether no part is there.
fn is_refused(alloc: Global, bytes: &[u8], schema: &Schema) -> Result<bool, Memory> {
    let first = count_in(alloc, bytes, 0, schema)?;
    let second = count_in(alloc, bytes, 1, schema)?;
    Ok(first.is_none() && second.is_none())
}

/// Whether these bytes are encoded again of the parts that are read of them, or there are none.
fn holds(alloc: Global, bytes: &[u8], schema: &Schema) -> Result<bool, Memory> {
    match spill_again(alloc, bytes, schema)? {
        Some(same) => Ok(same.as_slice() == bytes),
        None => Ok(true),
    }
}

#[test]
fn spills_are_read_and_written(rt: HostRuntime) -> Result<(), Fail> {
    let alloc = rt.alloc();
    let pairs = schema_of(alloc, b'I', b"I")?;
    for (part, count) in [(0, Some(0)), (1, Some(2)), (2, None), (u32::MAX, None)] {
        assert!(rt; count_in(alloc, TWO_PARTS, part, &pairs)? == count);
    }
    assert!(rt; spill_again(alloc, TWO_PARTS, &pairs)?.is_some());
    let mut bytes = Vec::from_slice(alloc, TWO_PARTS)?;
    for at in 0..TWO_PARTS.len() {
        for bit in [1u8, 128] {
            if at < bytes.len() {
                bytes[at] ^= bit;
                assert!(rt; holds(alloc, bytes.as_slice(), &pairs)?);
                bytes[at] ^= bit;
            }
        }
    }
    Ok(())
}

#[test]
fn what_is_no_spill_is_refused(rt: HostRuntime) -> Result<(), Fail> {
    let alloc = rt.alloc();
    let pairs = schema_of(alloc, b'I', b"I")?;
    for bytes in TOO_MANY {
        assert!(rt; is_refused(alloc, bytes, &pairs)?);
    }
    let mut bytes = Vec::from_slice(alloc, TWO_PARTS)?;
    bytes.push(0)?;
    assert!(rt; is_refused(alloc, bytes.as_slice(), &pairs)?);
    bytes.truncate(TWO_PARTS.len() - 1);
    assert!(rt; is_refused(alloc, bytes.as_slice(), &pairs)?);
    bytes.push(3)?;
    if FIRST_FIELD < bytes.len() {
        bytes[FIRST_FIELD] = 9;
    }
    // The second section is not in order, so the first is not there either.
    assert!(rt; is_refused(alloc, bytes.as_slice(), &pairs)?);
    Ok(())
}
