//! What a map emits, by parts and in order, as the bytes of a file; the sections of a part made one again.
#![tactic(auto)]

mod encoding;
mod laws;
mod passing;
mod reading;

pub use encoding::encode_spill;
pub use laws::a_section_is_the_part;
pub use reading::section;
pub use sorted_parts::{Merged, SpillBuilder, merge, spill};
