//! The commands of `haloop`, over files and a sink that are handed in.
#![tactic(auto)]

mod chain;
mod check;
mod clearing;
mod fault;
mod input;
mod lines;
mod output;
mod replay;
mod run;
mod top;
mod words;

pub use chain::plain;
pub use plain_job::{End, PlainResult};
pub use top::haloop_top;
