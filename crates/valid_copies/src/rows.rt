ghost use Rattle.std.specs.Prelude.{◌≡◌, IfOk};
ghost use Rattle.std.specs.Option.{option_copied};
ghost use Rattle.valid_copies.specs.Readings.{IsFile, StandsFor};
ghost use Rattle.valid_copies.specs.Texts.{schema_of, stream_schema};
ghost use Rattle.hal_base.specs.Shapes.{out_schema};

use hal_base::{Memory, Records, Schema, Shape};
use node_names::Name;
use partition_shuffle::section;
use record_blocks::decode;
use run_model::source_of;
use std::alloc::Global;

/// The records for which the bytes of a file stand, of a spill those of its section of this part. Bytes that are no text
/// of its kind stand for none.
pub fn rows_of(
    alloc: Global,
    shape: &Shape,
    name: &Name,
    bytes: &[u8],
    part: u32,
) -> Result<Records, Memory>
    requires { IsFile name.now }
    ensures { IfOk result (StandsFor shape.now name.now bytes.now part) }
{
    let Some(schema) = schema_of(shape, name) else {
        return Ok(Records::new(alloc));
    };
    let found = match *name {
        Name::Spill { .. } => section(alloc, bytes, part, schema)?,
        _ => decode(alloc, bytes, schema)?,
    };
    match found {
        Some(rows) => Ok(rows),
        None => Ok(Records::new(alloc)),
    }
}

/// The schema of the records of a name. `None` where the shape has no such table, source or step.
pub fn schema_of<'a>(shape: &'a Shape, name: &Name) -> Option<&'a Schema>
    requires { IsFile name.now }
    ensures { option_copied result ≡ schema_of shape.now name.now }
{
    match *name {
        Name::Blk { table, .. } | Name::Mic { table, .. } => shape.tables.get(table as usize),
        Name::Spill { step, source, .. } | Name::Ric { step, source, .. } => {
            stream_schema(shape, step, source)
        }
        Name::Out { step, .. } => out_schema(shape, step),
        Name::Roc { .. } => match shape.steps.len() {
            0 => None,
            last => match shape.steps.get(last - 1) {
                Some(step) => Some(&step.out),
                None => None,
            },
        },
    }
}

fn stream_schema<'a>(shape: &'a Shape, step: u32, source: u32) -> Option<&'a Schema>
    ensures { option_copied result ≡ stream_schema shape.now step source }
{
    match source_of(shape, step, source) {
        Some(source) => Some(&source.stream),
        None => None,
    }
}

fn out_schema<'a>(shape: &'a Shape, step: u32) -> Option<&'a Schema>
    ensures { option_copied result ≡ out_schema shape.now step }
{
    if step == 0 {
        return None;
    }
    match shape.steps.get(step as usize - 1) {
        Some(step) => Some(&step.out),
        None => None,
    }
}
