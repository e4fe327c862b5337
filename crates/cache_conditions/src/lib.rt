//! Which sources of a program have which cache, whether its state has one, and else the word that refuses it.
#![tactic(auto)]

mod judging;
mod laws;
mod text;
mod verdict;

pub use judging::conditions;
pub use laws::{caches_keep_what_would_be_made, worked_programs};
pub use loop_program::Verdict;
pub use text::check_text;
pub use verdict::{SourceVerdict, SourceVerdicts, Verdicts};
