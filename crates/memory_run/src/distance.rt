ghost use Rattle.std.specs.Prelude.{◌≡◌, ℕ, List, min, sum, IfOk};
ghost use Rattle.hal_base.specs.declared.record.Record.{Record as Row};
ghost use Rattle.hal_base.specs.Shapes.{IsWellFormed};
ghost use Rattle.plain_job.specs.Chain as chain;
ghost use Rattle.plain_job.specs.Distances.{distance, distance_by, part_distances};
ghost use Rattle.plain_job.specs.Fit.{FunctionsFit, TablesFit};
ghost use Rattle.memory_run.specs.steps.Rounds.{AreLeft};

use fixpoint_test::{global_distance, part_distance};
use hal_base::{Functions, Memory, Parts, Records, Shape};
use plain_job::together;
use std::alloc::Global;

/// How far what the last step left is from what it left in the round before.
pub(crate) fn distance_of<F: Functions>(
    alloc: Global,
    functions: &F,
    shape: &Shape,
    old: &Parts,
    new: &Parts,
) -> Result<u64, Memory>
    requires shape { IsWellFormed shape.now }
    requires fits { FunctionsFit (F.meaning functions.now) shape.now }
    ensures { IfOk result (λ far. (tables : List (List Row)) (i j : ℕ) → TablesFit shape.now tables
        → AreLeft (F.meaning functions.now) shape.now tables i old.now → AreLeft (F.meaning functions.now) shape.now tables j new.now
        → far ≡ distance (F.meaning functions.now) shape.now (chain.together old.now) (chain.together new.now)) }
{
    let last = shape.steps.len() as u32;
    // Then each key stands in one part alone, which is the same in both rounds.
    if functions.keeps_key(last) && !functions.partition_uses_round(last) {
        distance_by_parts(alloc, functions, old.as_slice(), new.as_slice())
    } else {
        distance_of_whole(alloc, functions, old, new)
    }
}

/// The sum of the distances of each part from the same part of the round before.
fn distance_by_parts<F: Functions>(
    alloc: Global,
    functions: &F,
    old: &[Records],
    new: &[Records],
) -> Result<u64, Memory>
    ensures { IfOk result (λ far. far ≡ min (sum (part_distances (F.meaning functions.now).distance old.now new.now)) 9223372036854775807) }
{
    let mut distances = Vec::with_capacity(alloc, old.len())?;
    let mut olds = old;
    let mut news = new;
    'parts: loop {
        let [old, later_olds @ ..] = olds else { break };
        let [new, later_news @ ..] = news else { break };
        distances.push(part_distance(alloc, functions, old, new)?)?;
        olds = later_olds;
        news = later_news;
    }
    Ok(global_distance(&distances))
}

/// The distance of all parts, one after another.
fn distance_of_whole<F: Functions>(
    alloc: Global,
    functions: &F,
    old: &Parts,
    new: &Parts,
) -> Result<u64, Memory>
    ensures { IfOk result (λ far. far ≡ distance_by (F.meaning functions.now).distance (chain.together old.now) (chain.together new.now)) }
{
    let old = together(alloc, old)?;
    let new = together(alloc, new)?;
    part_distance(alloc, functions, &old, &new)
}
