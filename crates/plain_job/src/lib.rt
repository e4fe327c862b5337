//! What a job and a chain of jobs mean, over whole lists, and laws of them.
#![tactic(auto)]

mod chain;
mod distance;
mod ending;
mod insertion;
mod laws;
mod plain;
mod round;

pub use chain::plain_chain;
pub use ending::{End, PlainResult};
pub use laws::{
    chains_are_by_numbers, chains_are_of_their_schemas, chains_are_one, parts_make_the_distance,
    parts_make_the_job, sections_make_the_job, sorting_keeps_the_job,
};
pub use plain::{group_of, keys_of, plain_part, plain_stream};
pub use round::together;
