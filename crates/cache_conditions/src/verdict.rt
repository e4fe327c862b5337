use hal_base::{CopyIn, Items, Memory};
use loop_program::Verdict;
use std::alloc::Global;

/// The verdicts on a source. Steps and sources count from 1.
#[derive(Clone, Copy)]
pub struct SourceVerdict {
    pub step: u32,
    pub source: u32,
    /// On the reducer input cache.
    pub input: Verdict,
    /// Whether it has the mapper input cache.
    pub mapper: bool,
}

impl CopyIn for SourceVerdict {
    fn copy(&self, _alloc: Global) -> Result<SourceVerdict, Memory> {
        Ok(*self)
    }
}

/// The verdicts on sources, in order of step and source.
pub type SourceVerdicts = Items<SourceVerdict>;

/// The verdicts on a program: on each source, and on the reducer output cache of the state.
#[derive(Drop)]
pub struct Verdicts {
    pub sources: SourceVerdicts,
    pub output: Verdict,
}
