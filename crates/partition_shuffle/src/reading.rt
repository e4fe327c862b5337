ghost use Rattle.std.specs.Prelude.{◌<◌, IfOk};
ghost use Rattle.record_blocks.specs.Decoded.{Decoded};
ghost use Rattle.record_blocks.specs.steps.Decoders.{Decodes, many};
ghost use Rattle.partition_shuffle.specs.SpillTexts.{IsSection};
ghost use Rattle.partition_shuffle.specs.steps.Sections as steps;
ghost use Rattle.partition_shuffle.specs.steps.Sections.{Finds, Picks, PicksAmong};

use crate::passing::pass_sections;
use hal_base::{Memory, Records, Schema};
use record_blocks::{Cursor, TextFault};
use std::alloc::Global;

/// The section of a part, from 0 on, in the spill text of parts of the schema. `None` exactly where the
/// bytes are the spill text of no such parts, or the part is not below their number. The whole text is
/// judged, and the records of other parts are not kept. docs/FORMATS.md, "Spills".
pub fn section(
    alloc: Global,
    bytes: &[u8],
    part: u32,
    schema: &Schema,
) -> Result<Option<Records>, Memory>
    ensures { IfOk result (Decoded (IsSection schema.now bytes.now part)) }
{
    match picked(alloc, bytes, part, schema) {
        Ok(rows) => Ok(rows),
        Err(TextFault::Malformed) => Ok(None),
        Err(TextFault::Memory) => Err(Memory),
    }
}

fn picked(
    alloc: Global,
    bytes: &[u8],
    part: u32,
    schema: &Schema,
) -> Result<Option<Records>, TextFault>
    ensures { Picks (steps.spill schema.now bytes.now) part result }
{
    let mut cursor = Cursor::new(bytes);
    cursor.expect(b"HLS1")?;
    let count = cursor.short()?;
    if part >= u32::from(count) {
        return Ok(None);
    }
    let rows = pick(alloc, &mut cursor, part, u32::from(count), schema)?;
    Ok(Some(rows))
}

/// The section of this number among so many, behind which nothing follows.
fn pick(
    alloc: Global,
    cursor: &mut Cursor,
    part: u32,
    count: u32,
    schema: &Schema,
) -> Result<Records, TextFault>
    requires { part < count }
    ensures { PicksAmong (many (steps.section schema.now) count cursor.old) part result }
{
    pass_sections(alloc, cursor, schema, part)?;
    let rows = read_section(alloc, cursor, schema)?;
    pass_sections(alloc, cursor, schema, count - part - 1)?;
    if cursor.len() > 0 {
        return Err(TextFault::Malformed);
    }
    Ok(rows)
}

fn read_section(alloc: Global, cursor: &mut Cursor, schema: &Schema) -> Result<Records, TextFault>
    ensures { Decodes (steps.section schema.now cursor.old) result cursor.new }
{
    let size = cursor.number()?;
    match cursor.bytes(size) {
        Some(bytes) => read_block(alloc, bytes, schema),
        None => Err(TextFault::Malformed),
    }
}

fn read_block(alloc: Global, bytes: &[u8], schema: &Schema) -> Result<Records, TextFault>
    ensures { Finds (steps.sorted_block schema.now bytes.now) result }
{
    let mut cursor = Cursor::new(bytes);
    let rows = cursor.block(alloc, schema)?;
    if cursor.len() > 0 {
        return Err(TextFault::Malformed);
    }
    if !rows.as_slice().is_sorted() {
        return Err(TextFault::Malformed);
    }
    Ok(rows)
}
