//! Where a task goes: to a node that holds what it reads, or else to the idle nodes in turn.
#![tactic(auto)]

mod choice;
mod favoured;
mod holder_sets;
mod placement;
mod readable;
mod reads;
mod sources;
mod splits;
mod tasks;
mod view;

pub use placement::site;
pub use readable::can_read;
pub use reads::{Names, task_files};
pub use sources::{is_cached, last_step, source_count};
pub use splits::{split_count, split_of};
pub use tasks::{Tasks, round_tasks};
pub use view::View;
