//! Worked rows, and calls that the built program does not make; a crate for tests alone.
#![tactic(auto)]

#[cfg(test)]
mod base_tests;
#[cfg(test)]
mod chain_tests;
#[cfg(test)]
mod failing;
#[cfg(test)]
mod failure_tests;
pub mod link_counts;
pub mod rows;
#[cfg(test)]
mod samples;
