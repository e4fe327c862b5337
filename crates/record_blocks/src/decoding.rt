ghost use Rattle.std.specs.Prelude.{IfOk};
ghost use Rattle.record_blocks.specs.Blocks.{IsBlock};
ghost use Rattle.record_blocks.specs.Decoded.{Decoded};
ghost use Rattle.record_blocks.specs.steps.Decoders as decoders;
ghost use Rattle.record_blocks.specs.steps.Decoders.{DecodesWhole};

use crate::cursor::Cursor;
use crate::fault::TextFault;
use hal_base::{Memory, Records, Schema};
use std::alloc::Global;

/// The records of the schema of which these bytes are the block text. `None` exactly where the bytes are
/// that of no list of such records. docs/FORMATS.md, "Blocks".
pub fn decode(alloc: Global, bytes: &[u8], schema: &Schema) -> Result<Option<Records>, Memory>
    ensures { IfOk result (Decoded (IsBlock schema.now bytes.now)) }
{
    match whole(alloc, bytes, schema) {
        Ok(rows) => Ok(Some(rows)),
        Err(TextFault::Malformed) => Ok(None),
        Err(TextFault::Memory) => Err(Memory),
    }
}

fn whole(alloc: Global, bytes: &[u8], schema: &Schema) -> Result<Records, TextFault>
    ensures { DecodesWhole (decoders.block schema.now bytes.now) result }
{
    let mut cursor = Cursor::new(bytes);
    let rows = cursor.block(alloc, schema)?;
    if cursor.len() > 0 {
        return Err(TextFault::Malformed);
    }
    Ok(rows)
}
