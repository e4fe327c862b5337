//! What a map emits, by parts and in order, and the sections of a part made one again.
#![tactic(auto)]

mod merged;
mod shuffle;

pub use merged::{Merged, merge};
pub use shuffle::{SpillBuilder, spill};
