use hal_base::{CopyIn, Items, Memory};
use std::alloc::Global;

/// What happens to a cluster, each at its moment. The number is that of a node, from 0, or of a round, from 1.
/// docs/CLUSTER.md, "Events".
#[derive(Clone, Copy)]
pub enum Event {
    /// The oldest attempt on the node is done.
    Done(u32),
    /// The oldest attempt on the node fails.
    Fail(u32),
    /// The node goes down, with its files.
    Lose(u32),
    /// The node comes back, with its files.
    Back(u32),
    /// The files of the node, which is down, are gone.
    Wipe(u32),
    /// The node takes no task.
    Busy(u32),
    /// The node takes tasks again.
    Idle(u32),
    /// Nothing happens from outside until this round.
    Round(u32),
}

impl CopyIn for Event {
    fn copy(&self, _alloc: Global) -> Result<Event, Memory> {
        Ok(*self)
    }
}

pub type Events = Items<Event>;

/// How large a cluster is, and what happens to it, in order. docs/FORMATS.md, "Schedules".
#[derive(Drop)]
pub struct Schedule {
    /// How many nodes there are.
    pub nodes: u32,
    /// How many attempts a node runs at a time.
    pub slots: u32,
    /// How many nodes get a copy of each block, and of each part of a round that `keep` divides.
    pub copies: u32,
    /// How many records a block has, but for the last of a table.
    pub block: u32,
    /// At how many failures of one task the run is refused.
    pub attempts: u32,
    /// In which rounds the parts of the last step are kept: those that it divides.
    pub keep: u32,
    pub events: Events,
}
