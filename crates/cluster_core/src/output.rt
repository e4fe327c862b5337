ghost use Rattle.std.specs.Prelude.{◌≡◌, ◌≤◌, [], ◌∷◌, List, drop, take, IfOk};
ghost use Rattle.hal_base.specs.declared.record.Record.{Record as Row};
ghost use Rattle.hal_base.specs.Shapes.{IsWellFormed};
ghost use Rattle.plain_job.specs.Fit.{FunctionsFit};
ghost use Rattle.run_laws.specs.Rounds.{round_in};
ghost use Rattle.cluster_core.specs.Outputs.{CanCompute, IsMade};

use hal_base::{Functions, Memory, Parts, Records, Shape};
use node_names::{Name, Task};
use std::alloc::Global;
use task_outputs::{map_output, reduce_output, test_value};

/// What a task makes: a file, or the value of a test.
#[derive(Drop)]
pub enum Output {
    File { name: Name, bytes: Vec<u8> },
    Value { part: u32, value: u64 },
}

/// What a task makes of the records that it read, for each of its inputs those of each file. docs/CLUSTER.md, "Tasks".
pub fn output_of<F: Functions>(
    alloc: Global,
    functions: &F,
    shape: &Shape,
    task: &Task,
    inputs: Vec<Parts>,
) -> Result<Output, Memory>
    requires shape { IsWellFormed shape.now }
    requires fits { FunctionsFit (F.meaning functions.now) shape.now }
    requires round { round_in task.now ≤ shape.now.rounds }
    requires inputs { CanCompute shape.now task.now inputs.items }
    ensures { IfOk result (IsMade (F.meaning functions.now) shape.now task.now inputs.items) }
{
    match *task {
        Task::Map {
            round,
            step,
            source,
            split,
        } => {
            let rows = only_rows(alloc, inputs);
            let bytes = map_output(alloc, functions, shape, round, step, source, &rows)?;
            let name = Name::Spill {
                round,
                step,
                source,
                split,
            };
            Ok(Output::File { name, bytes })
        }
        Task::Reduce { round, step, part } => {
            let bytes = reduce_output(alloc, functions, shape, round, step, inputs)?;
            let name = Name::Out { round, step, part };
            Ok(Output::File { name, bytes })
        }
        Task::Test { part, .. } => {
            let parts = apart(alloc, shape.parts as usize, inputs)?;
            let value = test_value(alloc, functions, parts.before, parts.after)?;
            Ok(Output::Value { part, value })
        }
    }
}

/// The records of the one file of one input.
fn only_rows(alloc: Global, inputs: Vec<Parts>) -> Records
    ensures { (rows : List Row) → inputs.items ≡ (rows ∷ []) ∷ [] → result ≡ rows }
{
    match inputs.into_iter().next() {
        Some(parts) => match parts.into_vec().into_iter().next() {
            Some(rows) => rows,
            None => Records::new(alloc),
        },
        None => Records::new(alloc),
    }
}

/// The parts of a round, and those of the round before.
#[derive(Drop)]
struct TwoRounds {
    after: Parts,
    before: Parts,
}

/// The parts that a test read, of which this many come first.
fn apart(alloc: Global, count: usize, inputs: Vec<Parts>) -> Result<TwoRounds, Memory>
    ensures { IfOk result (λ it. (parts : List (List Row)) → inputs.items ≡ parts ∷ [] → (it.after ≡ take count parts) × (it.before ≡ drop count parts)) }
{
    let mut after = match inputs.into_iter().next() {
        Some(parts) => parts.into_vec(),
        None => Vec::new(alloc),
    };
    let before = if count < after.len() {
        after.split_off(count)?
    } else {
        Vec::new(alloc)
    };
    Ok(TwoRounds {
        after: Parts::from_vec(after),
        before: Parts::from_vec(before),
    })
}
