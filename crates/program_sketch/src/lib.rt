//! Whole programs as they are written, read from their text.
#![tactic(auto)]

mod fault;
mod laws;
mod parse;
mod reader;
mod sketch;

pub use fault::{ProgramFault, What};
pub use laws::a_text_is_of_one_program;
pub use parse::parse_program;
pub use sketch::{
    Asked, InputSketch, InputSketches, Sketch, StepSketch, StepSketches, StopSketch, TableSketch,
    TableSketches,
};
