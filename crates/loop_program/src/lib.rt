//! Whole programs: accepted, or refused for their first fault.
#![tactic(auto)]

mod caches;
mod laws;
mod limits;
mod places;
mod program;
mod reading;
mod schemas;
mod typing;
mod verdict;

pub use caches::{has_mapper_input, input_verdict, output_verdict};
pub use laws::one_thing_is_wrong;
pub use program::{Names, Program};
pub use program_sketch::{Asked, ProgramFault, What};
pub use reading::read_program;
pub use verdict::Verdict;
