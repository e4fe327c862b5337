ghost use Rattle.std.specs.Prelude.{◌≡◌, ◌≤◌, Some, IfOk};
ghost use Rattle.hal_base.specs.declared.shape.Source.{Source as Input};
ghost use Rattle.hal_base.specs.Shapes.{IsWellFormed, source_at};
ghost use Rattle.plain_job.specs.Fit.{FunctionsFit};
ghost use Rattle.sorted_parts.specs.Spills.{spilled};
ghost use Rattle.partition_shuffle.specs.SpillTexts.{IsSpill};
ghost use Rattle.task_outputs.specs.Given.{AreTaken};

use crate::schemas::stream_schema;
use hal_base::{Functions, Memory, Records, Shape};
use partition_shuffle::{encode_spill, spill};
use std::alloc::Global;

/// The spill text, in the schema of its stream, of what the map of a source emits for these records, which are of the
/// schema that it takes. Rounds, steps and sources count from 1. docs/CLUSTER.md, "Tasks".
pub fn map_output<F: Functions>(
    alloc: Global,
    functions: &F,
    shape: &Shape,
    round: u32,
    step: u32,
    source: u32,
    rows: &Records,
) -> Result<Vec<u8>, Memory>
    requires shape { IsWellFormed shape.now }
    requires fits { FunctionsFit (F.meaning functions.now) shape.now }
    requires round { round ≤ shape.now.rounds }
    requires rows { AreTaken shape.now step source rows.now }
    ensures { IfOk result (λ bytes. (it : Input) → source_at shape.now step source ≡ Some it → IsSpill it.stream bytes.items (spilled (F.meaning functions.now) round step source rows.now shape.now.parts)) }
{
    let Some(schema) = stream_schema(shape, step, source) else {
        unreachable!();
    };
    let parts = spill(alloc, functions, round, step, source, rows, shape.parts)?;
    encode_spill(alloc, &parts, schema)
}
