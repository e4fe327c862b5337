//! The operations of the language: their names, the kinds that they ask for, and what they give.
#![tactic(auto)]

mod apply;
mod laws;
mod numbers;
mod operation;
mod texts;

pub use apply::{apply_to_one, apply_to_three, apply_to_two};
pub use laws::values_give_values;
pub use numbers::{is_true, number_of_two};
pub use operation::{Operation, Wanted, operation_named};
