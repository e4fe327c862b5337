//! When the rounds of a program may stop: how far two outputs are from each other, part by part, and
//! what follows from that.
#![tactic(auto)]

ghost use Rattle.fixpoint_test.specs.Follows.{DecisionsTellTheEnd};

mod decision;
mod distance;
mod in_order;

pub use decision::{Next, decide};
pub use distance::{global_distance, part_distance};

/// The decision on each round that the chain comes to tells what follows: the next, or the end.
/// docs/SEMANTICS.md, "Distance and end".
pub fn decisions_tell_the_end()
    ensures { DecisionsTellTheEnd }
{}
