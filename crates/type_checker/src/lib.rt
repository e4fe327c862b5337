//! The kinds of names and expressions in functions: right, or the first fault. Which functions a program uses where,
//! and their flags.
#![tactic(auto)]

mod expression;
mod fault;
mod flags;
mod function;
mod scope;
mod statement;
mod typed;
mod uses;

pub use expression::same_kind;
pub use fault::TypeFault;
pub use typed::{Typed, check};
pub use uses::{Use, UseMaps, UseStep, UseSteps, Uses};
