use counter_report::EndWord;
use hal_base::{CopyIn, Memory, Parts};
use std::alloc::Global;

/// What a run leaves: the parts of the last step in its last round, which that is, and how the loop ended.
#[derive(Drop)]
pub struct Finished {
    pub parts: Parts,
    pub rounds: u32,
    pub end: EndWord,
}

impl CopyIn for Finished {
    fn copy(&self, alloc: Global) -> Result<Finished, Memory> {
        Ok(Finished {
            parts: self.parts.copy(alloc)?,
            rounds: self.rounds,
            end: self.end,
        })
    }
}
