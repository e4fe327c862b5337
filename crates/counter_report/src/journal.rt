use hal_base::{CopyIn, Items, Memory};
use node_names::{Name, Task};
use std::alloc::Global;

/// The word of an event.
#[derive(Clone, Copy)]
pub enum EventWord {
    Done,
    Fail,
    Lose,
    Back,
    Wipe,
    Busy,
    Idle,
    Round,
}

/// How a run ends that is finished.
#[derive(Clone, Copy)]
pub enum EndWord {
    Fixpoint,
    Close,
    Limit,
}

/// A line of the journal. docs/FORMATS.md, "Journals".
#[derive(Clone, Copy)]
pub enum Entry {
    /// A round begins.
    Round {
        round: u32,
    },
    /// An attempt at a task starts on a node.
    Start {
        task: Task,
        node: u32,
    },
    /// An attempt commits. It read so many files from its own node, so many from others, and so many of the first were
    /// caches.
    Commit {
        task: Task,
        node: u32,
        local: u64,
        remote: u64,
        caches: u64,
    },
    /// An attempt was done, and of a file that it needs no copy was left.
    Starve {
        task: Task,
        node: u32,
    },
    /// An attempt fails, and so many of its task failed until now.
    Fail {
        task: Task,
        node: u32,
        count: u32,
    },
    /// An attempt is gone with its node.
    Kill {
        task: Task,
        node: u32,
    },
    /// An attempt still ran when its round ended.
    Dropped {
        task: Task,
        node: u32,
    },
    /// A copy was missed, and counts as gone.
    Struck {
        name: Name,
        node: u32,
    },
    Lose {
        node: u32,
    },
    Back {
        node: u32,
    },
    Wipe {
        node: u32,
    },
    Busy {
        node: u32,
    },
    Idle {
        node: u32,
    },
    /// An event did not apply. The number is that of its node or round.
    Skip {
        word: EventWord,
        number: u32,
    },
    /// The run is finished in this round.
    End {
        word: EndWord,
        round: u32,
    },
}

impl CopyIn for Entry {
    fn copy(&self, _alloc: Global) -> Result<Entry, Memory> {
        Ok(*self)
    }
}

/// What a run did, in order. docs/FORMATS.md, "Journals".
pub type Journal = Items<Entry>;
