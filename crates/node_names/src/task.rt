ghost use Rattle.std.specs.Prelude.{◌≡◌, string_bytes, IfOk};
ghost use Rattle.node_names.specs.Tasks.{text_of_task};

use hal_base::Memory;
use std::alloc::Global;

/// A piece of the work of a round. Rounds, steps and sources count from 1; splits and parts from 0.
#[derive(Clone, Copy, PartialEq, Eq)]
pub enum Task {
    /// Maps a split of a source.
    Map {
        round: u32,
        step: u32,
        source: u32,
        split: u32,
    },
    /// Reduces a part of a step.
    Reduce {
        round: u32,
        step: u32,
        part: u32,
    },
    /// Compares a part of what the round gave with the round before.
    Test {
        round: u32,
        part: u32,
    },
}

/// The text of a task, as `map.1.2.1.0`. docs/FORMATS.md, "Names of tasks".
pub fn task_text(alloc: Global, task: &Task) -> Result<String, Memory>
    ensures { IfOk result (λ text. string_bytes text ≡ text_of_task task.now) }
{
    Ok(match *task {
        Task::Map {
            round,
            step,
            source,
            split,
        } => format!(in alloc; "map.{round}.{step}.{source}.{split}")?,
        Task::Reduce { round, step, part } => format!(in alloc; "reduce.{round}.{step}.{part}")?,
        Task::Test { round, part } => format!(in alloc; "test.{round}.{part}")?,
    })
}
