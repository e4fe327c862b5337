use crate::fields::Schema;
use crate::items::{CopyIn, Items};
use crate::memory::Memory;
use std::alloc::Global;

/// Where a source of a step takes its records from: the state, the output of the step before, or a
/// table, which is read in every round or in one round only. Tables count from 0 and rounds from 1.
#[derive(Clone, Copy)]
pub enum Origin {
    State,
    Prev,
    Table { table: u32, only: Option<u32> },
}

/// A source of a step: its origin, the schema of its stream, and whether it has each of the caches.
#[derive(Drop)]
pub struct Source {
    pub from: Origin,
    pub stream: Schema,
    pub reducer_input: bool,
    pub mapper_input: bool,
}

impl CopyIn for Source {
    fn copy(&self, alloc: Global) -> Result<Source, Memory> {
        let stream = self.stream.copy(alloc)?;
        Ok(Source {
            from: self.from,
            stream,
            reducer_input: self.reducer_input,
            mapper_input: self.mapper_input,
        })
    }
}

pub type Sources = Items<Source>;

/// A step of the loop's body, and the schema of what it emits.
#[derive(Drop)]
pub struct Step {
    pub sources: Sources,
    pub out: Schema,
}

impl CopyIn for Step {
    fn copy(&self, alloc: Global) -> Result<Step, Memory> {
        let sources = self.sources.copy(alloc)?;
        let out = self.out.copy(alloc)?;
        Ok(Step { sources, out })
    }
}

pub type Steps = Items<Step>;

pub type Schemas = Items<Schema>;

pub type Counts = Items<u32>;

/// A program without its functions: how many parts and rounds it has, when it stops, its tables, of
/// which `start` is the first state, the number of blocks of each, and its steps.
#[derive(Drop)]
pub struct Shape {
    pub parts: u32,
    pub rounds: u32,
    pub exact: bool,
    pub threshold: u64,
    pub start: u32,
    pub tables: Schemas,
    pub blocks: Counts,
    pub steps: Steps,
    pub reducer_output: bool,
}
