ghost use Rattle.std.specs.Prelude.{◌≡◌, ◌++◌, map, IfOk, OnOk};
ghost use Rattle.std.specs.List.{range_with_len};
ghost use Rattle.hal_base.specs.Shapes.{IsWellFormed};
ghost use Rattle.node_names.specs.declared.task.Task.TheVariants as task;
ghost use Rattle.run_model.specs.Tasks.{maps, reduces, splits, tasks_of_round, tests};

use crate::sources::{last_step, source_count};
use crate::splits::split_count;
use hal_base::{Items, Memory, Shape};
use node_names::Task;
use std::alloc::Global;

/// Tasks, one after another.
pub type Tasks = Items<Task>;

/// The tasks of a round in task order: of each step the maps and then the reduces, and last the tests. Rounds count from
/// 1. Errors: want of memory. docs/CLUSTER.md, "Tasks".
pub fn round_tasks(alloc: Global, shape: &Shape, round: u32) -> Result<Tasks, Memory>
    requires { IsWellFormed shape.now }
    ensures { IfOk result (λ tasks. tasks ≡ tasks_of_round shape.now round) }
{
    let mut tasks = Tasks::new(alloc);
    'steps: for step in 1..last_step(shape) + 1 {
        push_maps(&mut tasks, shape, round, step)?;
        push_reduces(&mut tasks, shape, round, step)?;
    }
    push_tests(&mut tasks, shape, round)?;
    Ok(tasks)
}

/// Adds the maps of a step.
fn push_maps(tasks: &mut Tasks, shape: &Shape, round: u32, step: u32) -> Result<(), Memory>
    requires { IsWellFormed shape.now }
    ensures { OnOk result (tasks.new ≡ tasks.old ++ maps shape.now round step) }
{
    'sources: for source in 1..source_count(shape, step) + 1 {
        push_source(tasks, shape, round, step, source)?;
    }
    Ok(())
}

/// Adds the maps of a source of a step.
fn push_source(
    tasks: &mut Tasks,
    shape: &Shape,
    round: u32,
    step: u32,
    source: u32,
) -> Result<(), Memory>
    ensures { OnOk result (tasks.new ≡ tasks.old ++ map (task.Map round step source) (splits shape.now round step source)) }
{
    'splits: for split in 0..split_count(shape, round, step, source) {
        tasks.push(Task::Map {
            round,
            step,
            source,
            split,
        })?;
    }
    Ok(())
}

/// Adds the reduces of a step.
fn push_reduces(tasks: &mut Tasks, shape: &Shape, round: u32, step: u32) -> Result<(), Memory>
    ensures { OnOk result (tasks.new ≡ tasks.old ++ reduces shape.now round step) }
{
    'parts: for part in 0..shape.parts {
        tasks.push(Task::Reduce { round, step, part })?;
    }
    Ok(())
}

/// Adds the tests of a round, of which the first has none.
fn push_tests(tasks: &mut Tasks, shape: &Shape, round: u32) -> Result<(), Memory>
    ensures { OnOk result (tasks.new ≡ tasks.old ++ tests shape.now round) }
{
    'parts: for part in 0..tests_in(shape, round) {
        tasks.push(Task::Test { round, part })?;
    }
    Ok(())
}

/// How many tests a round has.
fn tests_in(shape: &Shape, round: u32) -> u32
    ensures { map (task.Test round) (range_with_len 0 result) ≡ tests shape.now round }
{
    if round < 2 {
        0
    } else if shape.reducer_output {
        shape.parts
    } else {
        1
    }
}
