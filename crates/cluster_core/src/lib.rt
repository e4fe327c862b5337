//! A cluster that is replayed: blocks on nodes, attempts at tasks, and turn after turn until the loop ends.
#![tactic(auto)]

mod acting;
mod advancing;
mod attempt;
mod cluster;
mod deciding;
mod fault;
mod finished;
mod first_round;
mod loading;
mod output;
mod parts;
mod round_change;
mod running;
mod starting;
mod state;
mod tables;
mod turning;
mod values;
mod writes;

pub use cluster::{Cluster, Turned};
pub use fault::CoreFault;
pub use finished::Finished;
