//! What lies on the nodes of a cluster, and what is done there: names of files, digests, and tasks.
#![tactic(auto)]

mod digest;
mod laws;
mod name;
mod task;

pub use digest::Digest;
pub use laws::{distinct_names_have_distinct_texts, distinct_tasks_have_distinct_texts};
pub use name::{Name, NameKind, file_name};
pub use task::{Task, task_text};
