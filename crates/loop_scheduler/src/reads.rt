ghost use Rattle.std.specs.Prelude.{◌≡◌, [], ◌∷◌, ◌++◌, map, IfOk, OnOk};
ghost use Rattle.hal_base.specs.Shapes.{IsWellFormed};
ghost use Rattle.run_model.specs.Tasks.{last_outs, source_numbers, split};
ghost use Rattle.loop_scheduler.specs.Reads.{files_of};
ghost use Rattle.loop_scheduler.specs.steps.Reading.{parts_read, spill_round, spills_read};

use crate::sources::{is_cached, last_step, source_count};
use crate::splits::{split_count, split_of};
use hal_base::{Items, Memory, Shape};
use node_names::{Name, Task};
use std::alloc::Global;

/// Names of files, one after another.
pub type Names = Items<Name>;

/// The files of each input of a task, in order, for where no cache stands for them: of a map its split; of a reduce, for
/// each source, its spills, which are those of round 1 where the source is cached; of a test its new and old parts, each
/// in a list of its own where the output is cached. Errors: want of memory. docs/CLUSTER.md, "What a task needs".
pub fn task_files(alloc: Global, shape: &Shape, task: &Task) -> Result<Items<Names>, Memory>
    requires { IsWellFormed shape.now }
    ensures { IfOk result (λ lists. lists ≡ files_of shape.now task.now) }
{
    match *task {
        Task::Map {
            round,
            step,
            source,
            split,
        } => only(alloc, split_file(alloc, shape, round, step, source, split)?),
        Task::Reduce { round, step, .. } => spill_files(alloc, shape, round, step),
        Task::Test { round, part } => part_files(alloc, shape, round, part),
    }
}

/// A list with these files alone.
fn only(alloc: Global, files: Names) -> Result<Items<Names>, Memory>
    ensures { IfOk result (λ lists. lists ≡ files ∷ []) }
{
    let mut lists = Items::new(alloc);
    lists.push(files)?;
    Ok(lists)
}

/// A list with this file alone.
fn only_file(alloc: Global, name: Name) -> Result<Names, Memory>
    ensures { IfOk result (λ files. files ≡ name ∷ []) }
{
    let mut files = Names::new(alloc);
    files.push(name)?;
    Ok(files)
}

/// The split that a map reads.
fn split_file(
    alloc: Global,
    shape: &Shape,
    round: u32,
    step: u32,
    source: u32,
    number: u32,
) -> Result<Names, Memory>
    requires { IsWellFormed shape.now }
    ensures { IfOk result (λ files. files ≡ split shape.now round step source number) }
{
    match split_of(shape, round, step, source, number) {
        Some(name) => only_file(alloc, name),
        None => Ok(Names::new(alloc)),
    }
}

/// The spills that a reduce reads, for each source of its step.
fn spill_files(alloc: Global, shape: &Shape, round: u32, step: u32) -> Result<Items<Names>, Memory>
    requires { IsWellFormed shape.now }
    ensures { IfOk result (λ lists. lists ≡ map (spills_read shape.now round step) (source_numbers shape.now step)) }
{
    let mut lists = Items::new(alloc);
    'sources: for source in 1..source_count(shape, step) + 1 {
        lists.push(source_spills(alloc, shape, round, step, source)?)?;
    }
    Ok(lists)
}

/// The spills that a reduce reads of a source.
fn source_spills(
    alloc: Global,
    shape: &Shape,
    round: u32,
    step: u32,
    source: u32,
) -> Result<Names, Memory>
    ensures { IfOk result (λ files. files ≡ spills_read shape.now round step source) }
{
    let made = spill_round(shape, round, step, source);
    let mut files = Names::new(alloc);
    'splits: for split in 0..split_count(shape, made, step, source) {
        files.push(Name::Spill {
            round: made,
            step,
            source,
            split,
        })?;
    }
    Ok(files)
}

/// The round whose spills a reduce reads of a source.
pub fn spill_round(shape: &Shape, round: u32, step: u32, source: u32) -> u32
    ensures { result ≡ spill_round shape.now round step source }
{
    if is_cached(shape, step, source) {
        1
    } else {
        round
    }
}

/// The parts that a test reads.
fn part_files(alloc: Global, shape: &Shape, round: u32, part: u32) -> Result<Items<Names>, Memory>
    requires { IsWellFormed shape.now }
    ensures { IfOk result (λ lists. lists ≡ parts_read shape.now round part) }
{
    let before = round.saturating_sub(1);
    if !shape.reducer_output {
        let mut files = Names::new(alloc);
        push_parts(&mut files, shape, round)?;
        push_parts(&mut files, shape, before)?;
        return only(alloc, files);
    }
    let step = last_step(shape);
    let new = only_file(alloc, Name::Out { round, step, part })?;
    let old = Name::Out {
        round: before,
        step,
        part,
    };
    let mut lists = only(alloc, new)?;
    lists.push(only_file(alloc, old)?)?;
    Ok(lists)
}

/// Adds the parts of what a round leaves.
fn push_parts(files: &mut Names, shape: &Shape, round: u32) -> Result<(), Memory>
    requires { IsWellFormed shape.now }
    ensures { OnOk result (files.new ≡ files.old ++ last_outs shape.now round) }
{
    let step = last_step(shape);
    'parts: for part in 0..shape.parts {
        files.push(Name::Out { round, step, part })?;
    }
    Ok(())
}
