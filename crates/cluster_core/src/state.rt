use counter_report::Journal;
use hal_base::Shape;
use loop_scheduler::Tasks;
use replica_table::Table;
use run_model::{Attempt, Failed};
use schedule_text::Schedule;
use std::marker::Model;

/// A cluster between two steps of a turn.
#[derive(Drop)]
pub struct State {
    pub shape: Shape,
    pub schedule: Schedule,
    /// How many events are spent.
    pub spent: usize,
    pub round: u32,
    pub table: Table,
    /// The tasks of the round, in task order.
    pub tasks: Tasks,
    /// The value of each test of the round, as far as it is known.
    pub values: Vec<Option<u64>>,
    /// In order of start.
    pub running: Vec<Attempt>,
    /// In order of the first failure of each task.
    pub failures: Vec<Failed>,
    pub journal: Journal,
}

impl Model for State {
    ghost use Rattle.cluster_core.specs.States.{IsKept, Seen, seen_of};

    ghost Value = { Seen };

    ghost view = { λ c. seen_of c.shape c.schedule (record { round = c.round; table = c.table; values = c.values.items; running = c.running.items; failures = c.failures.items; spent = c.spent; journal = c.journal }) };

    ghost invariant = { λ c. IsKept c.shape c.schedule (record { round = c.round; table = c.table; values = c.values.items; running = c.running.items; failures = c.failures.items; spent = c.spent; journal = c.journal }) c.tasks };
}
