ghost use Rattle.memory_run.specs.steps.Sections.{rows_of};

use hal_base::{Memory, Record, SortedSlice, SortedStream};
use sorted_parts::Merged;
use std::alloc::Global;

/// The records of a section: its own, which are moved out, or lent ones, which are copied.
#[derive(Drop)]
pub(crate) enum Stream<'a> {
    Own(Merged),
    Lent(SortedSlice<'a>),
}

impl<'a> SortedStream for Stream<'a> {
    ghost rows = { rows_of };

    fn left(&self) -> u64 {
        match self {
            Stream::Own(rows) => rows.left(),
            Stream::Lent(rows) => rows.left(),
        }
    }

    fn peek(&self) -> Option<&Record> {
        match self {
            Stream::Own(rows) => rows.peek(),
            Stream::Lent(rows) => rows.peek(),
        }
    }

    fn next(&mut self, alloc: Global) -> Result<Option<Record>, Memory> {
        match self {
            Stream::Own(rows) => rows.next(alloc),
            Stream::Lent(rows) => rows.next(alloc),
        }
    }
}
