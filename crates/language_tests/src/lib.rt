//! The language: functions printed, checked and run; a crate for tests alone.
#![tactic(auto)]

#[cfg(test)]
mod running;
#[cfg(test)]
mod texts;
mod vectors;

pub use vectors::{greatest_and_one, key_part, small_text, worked_vectors};
