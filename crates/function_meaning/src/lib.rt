//! What the functions of a program mean, under names with their values; and that typed functions never stop.
#![tactic(auto)]

mod given;
mod laws;

pub use given::{distance_given, part_given};
pub use laws::typed_functions_never_stop;
