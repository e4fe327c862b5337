//! Copies of files on nodes that are valid, calls that keep them so, and what an attempt at a task reads of them.
#![tactic(auto)]

mod desk;
mod fault;
mod inputs;
mod keeping;
mod reading;
mod removing;
mod rows;
mod texts;
mod tries;
mod writing;

pub use desk::Desk;
pub use fault::WorkFault;
pub use inputs::{ReadCounts, count_reads, read_inputs};
pub use keeping::{fetch_copy, put_copy, strike_copy, wipe_node};
pub use reading::{Found, read_all, read_need};
pub use removing::{clear_nodes, remove_files};
pub use rows::{rows_of, schema_of};
pub use texts::bytes_tell_the_value;
pub use tries::{first_try, up_file};
pub use writing::{write_copy, write_further};
