//! What holds of every run of the cluster, as laws of its definitions.
#![tactic(auto)]

mod blocks;
mod ending;
mod refusals;
mod rounds;
mod standing;
mod states;
mod telling;
mod turns;
mod wanting;
mod without_loss;

pub use blocks::block_copies_keep;
pub use ending::{act_answers, measure_falls, run_ends};
pub use refusals::{turn_tallies, turns_have_causes};
pub use rounds::{names_are_of_the_shape, tasks_are_of_the_shape};
pub use standing::{act_refuses, no_standstill, none_ready};
pub use states::{load_reaches, turn_reaches};
pub use telling::{ends_are_told, failures_are_told};
pub use turns::{
    decides_where_decided, load_then_turns, one_turn_more, same_outcome, turns_by_calls,
};
pub use wanting::{site_is_there, the_walk_is_right, the_wanted_are_least, wanted_are_tasks};
pub use without_loss::{
    load_is_orderly, quiet_advances, quiet_turns, quiet_turns_by_calls, ready_without_loss,
    starts_stay_orderly, wanted_without_loss,
};
