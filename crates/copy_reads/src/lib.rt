//! Reads of what an attempt needs, in which a copy that is missed is struck and the next one is tried.
#![tactic(auto)]

mod books;
mod fault;
mod inputs;
mod laws;
mod parts;
mod reader;
mod reading;

pub use books::Books;
pub use fault::ReadFault;
pub use laws::struck_tries_go_on;
pub use reader::Reader;
pub use reading::Found;
