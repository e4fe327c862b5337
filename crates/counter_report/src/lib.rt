//! What a run of the cluster did: its journal, line by line.
#![tactic(auto)]

mod journal;
mod laws;
mod report;
mod writing;

pub use journal::{EndWord, Entry, EventWord, Journal};
pub use laws::{distinct_journals_have_distinct_texts, worked_journals};
pub use report::{End, Report, report_text, tally};
pub use writing::journal_text;
