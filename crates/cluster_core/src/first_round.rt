ghost use Rattle.std.specs.Prelude.{◌≡◌, ◌∷◌, [], IfOk, None, replicate};
ghost use Rattle.counter_report.specs.declared.journal.Entry.TheVariants as line;
ghost use Rattle.cluster_core.specs.Loading.{IsLoaded, setup_of};
ghost use Rattle.loop_scheduler.specs.Views.{IsCounted};
ghost use Rattle.run_model.specs.Runs.{loaded};
ghost use Rattle.run_model.specs.Tasks.{test_count};
ghost use Rattle.schedule_text.specs.Schedules.{KeepsLimits};

use crate::state::State;
use counter_report::{Entry, Journal};
use hal_base::{Memory, Shape};
use loop_scheduler::round_tasks;
use replica_table::Table;
use schedule_text::Schedule;
use std::alloc::Global;

impl State {
    /// The cluster after load, with the copies of this table: round 1 begins.
    pub fn in_first_round(
        alloc: Global,
        shape: Shape,
        schedule: Schedule,
        table: Table,
    ) -> Result<State, Memory>
        requires counted { IsCounted shape }
        requires limits { KeepsLimits schedule }
        requires table { IsLoaded (setup_of shape schedule) table }
        ensures setup { IfOk result (λ state. state.setup ≡ setup_of shape schedule) }
        ensures plain { IfOk result (λ state. state.plain ≡ loaded (setup_of shape schedule)) }
        ensures round { IfOk result (λ state. state.kept.round ≡ 1) }
        ensures table { IfOk result (λ state. state.kept.table ≡ table) }
        ensures values { IfOk result (λ state. state.kept.values ≡ replicate (test_count shape) None) }
    {
        let tasks = round_tasks(alloc, &shape, 1)?;
        let values = unknown_values(alloc, &shape)?;
        let journal = first_line(alloc)?;
        Ok(State {
            shape,
            schedule,
            spent: 0,
            round: 1,
            table,
            tasks,
            values,
            running: Vec::new(alloc),
            failures: Vec::new(alloc),
            journal,
        })
    }
}

/// No value for each test of a round.
fn unknown_values(alloc: Global, shape: &Shape) -> Result<Vec<Option<u64>>, Memory>
    ensures { IfOk result (λ values. values.items ≡ replicate (test_count shape.now) None) }
{
    let count = if shape.reducer_output {
        shape.parts as usize
    } else {
        1
    };
    Ok(vec![in alloc; None; count]?)
}

/// The journal of a run that begins.
fn first_line(alloc: Global) -> Result<Journal, Memory>
    ensures { IfOk result (λ journal. journal ≡ line.Round 1 ∷ []) }
{
    let mut journal = Journal::new(alloc);
    journal.push(Entry::Round { round: 1 })?;
    Ok(journal)
}
