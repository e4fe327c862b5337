//! The value of each name: what a file holds, over the chain by round, step and part, as definitions alone.
#![tactic(auto)]
