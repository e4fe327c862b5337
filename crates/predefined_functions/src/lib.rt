//! The functions that every program knows.
#![tactic(auto)]

mod differences;
mod hops;
mod least_fields;
mod reduces;

pub use differences::differ;
pub use hops::push_keyed;
pub use reduces::{every, hop, least, same};
