use hal_base::Memory;
use thiserror::Error;

/// What is wrong in a line of a schedule. docs/FORMATS.md, "Schedules".
#[derive(Clone, Copy, Debug, PartialEq, Eq, Error)]
pub enum ScheduleWhat {
    /// The line is not a word, one space and a word, or its first word may not stand there.
    #[error("bad-word")]
    BadWord,
    /// The second word is no number, or more than a `u32` holds.
    #[error("bad-number")]
    BadNumber,
    /// The number is none that the word may have, or there are 1,000,000 events before.
    #[error("out-of-range")]
    OutOfRange,
    /// A block is to have more copies than there are nodes.
    #[error("copies-above-nodes")]
    CopiesAboveNodes,
    /// Before this line the number of nodes is not given.
    #[error("missing")]
    Missing,
    /// A line before has given the same setting.
    #[error("twice")]
    Twice,
}

/// Why a text is no schedule: what is wrong first, and in which line, counted from 1; or want of memory.
#[derive(Clone, Copy, Debug, Error)]
pub enum ScheduleFault {
    #[error("line {line}: {what}")]
    At { line: u64, what: ScheduleWhat },
    #[error("memory")]
    Memory,
}

impl From<Memory> for ScheduleFault {
    ghost use Rattle.std.specs.Prelude.{◌≡◌};
    ghost use Rattle.schedule_text.specs.declared.fault.ScheduleFault.TheVariants as fault;

    ghost from_gives = { λ _ it. it ≡ fault.Memory };

    fn from(_error: Memory) -> ScheduleFault {
        ScheduleFault::Memory
    }
}
