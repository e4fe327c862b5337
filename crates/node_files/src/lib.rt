//! Files on the disks of nodes, each with the digest of its bytes.
#![tactic(auto)]

mod fault;
mod files;

pub use fault::Fault;
pub use files::{Fetched, FileRef, fetch, put};
