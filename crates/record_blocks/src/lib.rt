//! The bytes of a block of records, and back; a table cut into blocks.
#![tactic(auto)]

mod cursor;
mod cutting;
mod decoding;
mod encoding;
mod fault;
mod laws;

pub use cursor::Cursor;
pub use cutting::cut;
pub use decoding::decode;
pub use encoding::{block_size, encode, push_block};
pub use fault::TextFault;
pub use laws::{
    a_block_is_decoded, a_block_is_of_one_list, a_list_has_one_block, pieces_stand_by_number,
};
