//! What the cluster does: a state machine over plain lists, which decides which calls its devices get and which lines its
//! journal has.
#![tactic(auto)]

mod attempt;
mod keeping;
mod rows;
mod sources;

pub use attempt::{Attempt, Failed};
pub use keeping::stays;
pub use rows::worked_rows;
pub use sources::source_of;
