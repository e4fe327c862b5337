ghost use Rattle.std.specs.Prelude.{◌≡◌, ◌≤◌, Some, true, map, IfOk};
ghost use Rattle.std.specs.List.{AllByRecursion};
ghost use Rattle.hal_base.specs.declared.shape.Step.{Step as Stage};
ghost use Rattle.hal_base.specs.Order.{record_cmp};
ghost use Rattle.hal_base.specs.Shapes.{IsWellFormed, step_at};
ghost use Rattle.hal_base.specs.Sorted.{Ascending, sorted};
ghost use Rattle.plain_job.specs.Chain.{together};
ghost use Rattle.plain_job.specs.Fit.{FunctionsFit};
ghost use Rattle.plain_job.specs.Job.{job};
ghost use Rattle.record_blocks.specs.Blocks.{IsBlock};
ghost use Rattle.task_outputs.specs.Given.{AreSections};

use crate::schemas::out_schema;
use group_reduce::reduce_part;
use hal_base::{Functions, Memory, Parts, Records, Shape};
use partition_shuffle::{Merged, merge};
use record_blocks::encode;
use std::alloc::Global;

/// The block text, in the schema of its step, of what the reduce of a step emits. `inputs` has for each source of the
/// step the sections of its stream, each in order. Rounds and steps count from 1. docs/CLUSTER.md, "Tasks".
pub fn reduce_output<F: Functions>(
    alloc: Global,
    functions: &F,
    shape: &Shape,
    round: u32,
    step: u32,
    inputs: Vec<Parts>,
) -> Result<Vec<u8>, Memory>
    requires fits { FunctionsFit (F.meaning functions.now) shape.now }
    requires round { round ≤ shape.now.rounds }
    requires inputs { AreSections shape.now step inputs.items }
    ensures { IfOk result (λ bytes. (it : Stage) → step_at shape.now step ≡ Some it → IsBlock it.out bytes.items (job ((F.meaning functions.now).reduce round step) (λ _. true) (map together inputs.items))) }
{
    let Some(schema) = out_schema(shape, step) else {
        unreachable!();
    };
    let rows = reduced(alloc, functions, round, step, inputs)?;
    encode(alloc, &rows, schema)
}

/// What the reduce of a step emits over the streams of which these are the sections.
fn reduced<F: Functions>(
    alloc: Global,
    functions: &F,
    round: u32,
    step: u32,
    inputs: Vec<Parts>,
) -> Result<Records, Memory>
    requires { AllByRecursion (AllByRecursion (Ascending record_cmp)) inputs.items }
    ensures { IfOk result (λ rows. rows ≡ job ((F.meaning functions.now).reduce round step) (λ _. true) (map together inputs.items)) }
{
    let mut streams = merged(alloc, inputs)?;
    reduce_part(alloc, functions, round, step, &mut streams)
}

/// The sections of each source made one stream.
fn merged(alloc: Global, inputs: Vec<Parts>) -> Result<Vec<Merged>, Memory>
    requires { AllByRecursion (AllByRecursion (Ascending record_cmp)) inputs.items }
    ensures { IfOk result (λ streams. streams.items ≡ map (sorted record_cmp) (map together inputs.items)) }
{
    let mut streams = Vec::with_capacity(alloc, inputs.len())?;
    'inputs: for sections in inputs {
        streams.push(merge(alloc, sections)?)?;
    }
    Ok(streams)
}
