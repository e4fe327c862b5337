//! Functions run: an implementation of `Functions` for the functions of a program.
#![tactic(auto)]

mod calls;
mod evaluator;
mod machine;
mod numbers;
mod resolve;
mod resolved;
mod running;

pub use evaluator::Evaluator;
