//! Which nodes of a cluster are up, and which of them holds a copy of which file.
#![tactic(auto)]

mod copied;
mod file_on;
mod file_order;
mod laws;
mod name_test;
mod node_set;
mod placing;
mod table;

pub use file_on::FileOn;
pub use file_order::sort_files;
pub use laws::names_keep_their_order;
pub use name_test::NameTest;
pub use node_set::NodeSet;
pub use placing::place;
pub use table::Table;
