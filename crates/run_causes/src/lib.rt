//! What each answer of a run shows of its schedule alone, as laws of the cluster's definitions.
#![tactic(auto)]

mod causes;
mod states;
mod worked;

pub use causes::{never_refused, refusals_show};
pub use states::{misses_are_struck, states_follow_the_schedule, turns_are_behind_load};
pub use worked::worked_fates;
