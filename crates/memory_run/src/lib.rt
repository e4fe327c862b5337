//! The unrolled chain of a program, computed in memory by sorted streams.
#![tactic(auto)]

mod chain;
mod distance;
mod first;
mod inputs;
mod kept;
mod release;
mod round;
mod sections;
mod sources;
mod streams;

pub use chain::chain_in_memory;
