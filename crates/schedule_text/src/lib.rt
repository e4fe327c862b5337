//! Schedules: how large a cluster is, and what happens to it; read from their text, or refused at its first fault.
#![tactic(auto)]

mod fault;
mod head;
mod laws;
mod lines;
mod reading;
mod schedule;
mod words;

pub use fault::{ScheduleFault, ScheduleWhat};
pub use laws::{each_text_has_one_outcome, worked_texts};
pub use reading::read_schedule;
pub use schedule::{Event, Events, Schedule};
