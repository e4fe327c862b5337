ghost use Rattle.std.specs.Prelude.{◌≡◌, None};
ghost use Rattle.record_blocks.specs.steps.Decoders.{Decodes, many};
ghost use Rattle.partition_shuffle.specs.steps.Sections as steps;
ghost use Rattle.partition_shuffle.specs.steps.Sections.{Approves, Passes, behind, passed};

use hal_base::{Record, Schema, compare_rows};
use record_blocks::{Cursor, TextFault};
use std::alloc::Global;

/// Passes over so many sections, and makes sure that each is one.
pub(crate) fn pass_sections(
    alloc: Global,
    cursor: &mut Cursor,
    schema: &Schema,
    count: u32,
) -> Result<(), TextFault>
    ensures { Passes (behind (many (steps.section schema.now) count cursor.old)) result cursor.new }
{
    let mut left = count;
    'sections: while left > 0 {
        pass_section(alloc, cursor, schema)?;
        left -= 1;
    }
    Ok(())
}

fn pass_section(alloc: Global, cursor: &mut Cursor, schema: &Schema) -> Result<(), TextFault>
    ensures { Passes (behind (steps.section schema.now cursor.old)) result cursor.new }
{
    let size = cursor.number()?;
    match cursor.bytes(size) {
        Some(bytes) => check_block(alloc, bytes, schema),
        None => Err(TextFault::Malformed),
    }
}

/// Makes sure that the bytes are a block of records in order. Only two records are there at a time.
fn check_block(alloc: Global, bytes: &[u8], schema: &Schema) -> Result<(), TextFault>
    ensures { Approves (steps.sorted_block schema.now bytes.now) result }
{
    let mut cursor = Cursor::new(bytes);
    cursor.head(alloc, schema)?;
    let count = cursor.number()?;
    pass_rows(alloc, &mut cursor, schema, count)?;
    if cursor.len() > 0 {
        return Err(TextFault::Malformed);
    }
    Ok(())
}

fn pass_rows(
    alloc: Global,
    cursor: &mut Cursor,
    schema: &Schema,
    count: u64,
) -> Result<(), TextFault>
    ensures { Passes (passed schema.now None count cursor.old) result cursor.new }
{
    let mut before = None;
    let mut left = count;
    'rows: while left > 0 {
        before = Some(next_row(alloc, cursor, schema, before)?);
        left -= 1;
    }
    Ok(())
}

/// The next record, which must not be below the one before it.
fn next_row(
    alloc: Global,
    cursor: &mut Cursor,
    schema: &Schema,
    before: Option<Record>,
) -> Result<Record, TextFault>
    ensures { Decodes (steps.next_row schema.now before cursor.old) result cursor.new }
{
    let row = cursor.row(alloc, schema)?;
    if !keeps_order(&before, &row) {
        return Err(TextFault::Malformed);
    }
    Ok(row)
}

fn keeps_order(before: &Option<Record>, row: &Record) -> bool
    ensures { result ≡ steps.keeps_order before.now row.now }
{
    match before {
        Some(before) => !compare_rows(before, row).is_gt(),
        None => true,
    }
}
