ghost use Rattle.std.specs.Prelude.{◌≡◌, ◌≤◌, ◌==◌, nat_lt, IfOk, MatchOption, OnErr, OnOk, Some};
ghost use Rattle.std.specs.List.{filter, find};
ghost use Rattle.replica_table.specs.Sets.{members};
ghost use Rattle.run_laws.specs.WithoutLoss.{Orderly, StaysOrderly};
ghost use Rattle.run_model.specs.Lists.{number_of};
ghost use Rattle.run_model.specs.Start.{start, start_one, started};
ghost use Rattle.run_model.specs.Tasks.{IsTask};
ghost use Rattle.run_model.specs.declared.attempt.Attempt.{Attempt as Tried};
ghost use Rattle.loop_scheduler.specs.Views.{IsCounted};
ghost use Rattle.cluster_core.specs.Starting.{can_start, made_at};

use crate::running::{is_running, load};
use crate::state::State;
use crate::tables::is_up;
use crate::values::is_known;
use counter_report::Entry;
use hal_base::Memory;
use loop_scheduler::{View, can_read, site};
use node_names::{Name, Task};
use replica_table::{NodeSet, Table};
use run_model::Attempt;

impl State {
    /// Ready tasks start, each at its site, until there is none. docs/CLUSTER.md, "A turn".
    pub fn start(&mut self) -> Result<(), Memory>
        requires orderly { StaysOrderly self.old.setup self.old.plain }
        ensures orderly { OnOk result (StaysOrderly self.new.setup self.new.plain) }
        ensures started { OnOk result (self.new.plain ≡ start self.old.setup self.old.plain) }
        ensures same { self.new.setup ≡ self.old.setup }
        ensures failures { self.new.plain.failures ≡ self.old.plain.failures }
        ensures table { self.new.kept.table ≡ self.old.kept.table }
        ensures values { self.new.kept.values ≡ self.old.kept.values }
        ensures round { self.new.kept.round ≡ self.old.kept.round }
    {
        'slots: for _slot in 0..self.schedule.nodes * self.schedule.slots {
            match self.first_ready() {
                Some(attempt) => self.begin(attempt)?,
                None => return Ok(()),
            }
        }
        Ok(())
    }

    /// The first ready task, and its site. `None` exactly where no task is ready.
    fn first_ready(&self) -> Option<Attempt>
        requires orderly { Orderly self.now.setup self.now.plain }
        ensures { MatchOption result (start_one self.now.setup self.now.plain ≡ self.now.plain) (λ a. start_one self.now.setup self.now.plain ≡ started a.task (Some a.node) self.now.plain) }
    {
        let idle = idle_nodes(&self.table, &self.running, self.schedule.slots);
        let view = View::new(&self.shape, &self.table, idle);
        let task = find_ready(
            &view,
            &self.table,
            &self.values,
            &self.running,
            self.tasks.as_slice(),
        )?;
        match site(&task, &view) {
            Some(node) => Some(Attempt { task, node }),
            None => None,
        }
    }

    /// An attempt starts.
    fn begin(&mut self, attempt: Attempt) -> Result<(), Memory>
        ensures started { OnOk result (self.new.plain ≡ started attempt.task (Some attempt.node) self.old.plain) }
        ensures same { self.new.setup ≡ self.old.setup }
        ensures failures { self.new.plain.failures ≡ self.old.plain.failures }
        ensures table { self.new.kept.table ≡ self.old.kept.table }
        ensures values { self.new.kept.values ≡ self.old.kept.values }
        ensures round { self.new.kept.round ≡ self.old.kept.round }
    {
        self.journal.push(Entry::Start {
            task: attempt.task,
            node: attempt.node,
        })?;
        self.running.push(attempt)?;
        Ok(())
    }
}

/// The up nodes with a slot free.
fn idle_nodes(table: &Table, running: &[Attempt], slots: u32) -> NodeSet
    ensures { members result.0 ≡ filter (λ n. nat_lt (number_of (λ (a : Tried). n == a.node) running.now) slots) table.now.up }
{
    let mut idle = table.up();
    'nodes: for node in 0..64 {
        if load(running, node) >= slots as usize {
            idle = idle.without(node);
        }
    }
    idle
}

/// Whether a task is made: its file lies on an up node; of a test, its value is known.
fn is_made(table: &Table, values: &[Option<u64>], task: &Task) -> bool
    ensures { result ≡ made_at table.now values.now task.now }
{
    match *task {
        Task::Map {
            round,
            step,
            source,
            split,
        } => is_up(
            table,
            &Name::Spill {
                round,
                step,
                source,
                split,
            },
        ),
        Task::Reduce { round, step, part } => is_up(table, &Name::Out { round, step, part }),
        Task::Test { part, .. } => is_known(values, part),
    }
}

/// The first of some tasks that is not made, does not run, and can read what it needs.
fn find_ready(
    view: &View,
    table: &Table,
    values: &[Option<u64>],
    running: &[Attempt],
    tasks: &[Task],
) -> Option<Task>
    ensures { result ≡ find (can_start view.now table.now values.now running.now) tasks.now }
{
    'tasks: for task in tasks {
        if !is_made(table, values, task) && !is_running(running, task) && can_read(view, task) {
            return Some(*task);
        }
    }
    None
}
