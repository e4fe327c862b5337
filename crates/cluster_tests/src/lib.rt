//! Files on nodes: their texts against vectors, disks on which things go wrong, who holds which copy, and how long caches
//! live; schedules, journals and reports; a crate for tests alone.
#![tactic(auto)]

#[cfg(test)]
mod block_tests;
#[cfg(test)]
mod disk_tests;
#[cfg(test)]
mod life_tests;
pub mod samples;
#[cfg(test)]
mod spill_tests;
#[cfg(test)]
mod table_tests;
#[cfg(test)]
mod text_tests;
pub mod vectors;
