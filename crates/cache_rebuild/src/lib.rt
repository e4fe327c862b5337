//! What has to be made, and made again: the wanted tasks of a round, those of them that can start, and the first block that is
//! missing.
#![tactic(auto)]

mod asked;
mod files;
mod goal;
mod missing;
mod needs;
mod starts;
mod walk;
mod wanting;

pub use goal::Goal;
pub use missing::first_missing_block;
pub use starts::ready;
pub use wanting::wanted;
