//! What a task makes of what it reads: from the values of the files that it reads follows the value of the file that it makes.
#![tactic(auto)]

mod attempts;
mod schemas;
mod sections;
mod tests;

pub use attempts::{attempts_are_right, parts_are_read, readings_are_right};
pub use schemas::{computed_fits, values_fit};
pub use sections::{
    caches_make_the_output, caches_serve, spills_have_sections, spills_make_the_output,
    splits_make_the_source,
};
pub use tests::tests_make_the_distance;
