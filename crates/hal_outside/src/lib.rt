//! The world outside: files, the disks of nodes and a sink of bytes, as traits with a written meaning, and each in memory;
//! and disks on which things go wrong by a script.
#![tactic(auto)]

mod answers;
mod disks;
mod faults;
mod files;
mod got;
mod log;
mod mem_disks;
mod mem_files;
mod mem_sink;
mod script;
mod script_disks;
mod sink;

pub use answers::{answer_with, misses_after};
pub use disks::Disks;
pub use faults::{DeviceFault, DiskFault, FileFault, SinkFault};
pub use files::Files;
pub use got::Got;
pub use mem_disks::MemDisks;
pub use mem_files::MemFiles;
pub use mem_sink::MemSink;
pub use script::{Act, Acts};
pub use script_disks::ScriptDisks;
pub use sink::Sink;
