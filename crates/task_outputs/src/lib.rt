//! What a task computes from the records that it read: the bytes of the file that it is to write, or the value of a test.
//! It knows no file, disk or table.
#![tactic(auto)]

mod mapping;
mod reducing;
mod schemas;
mod testing;

pub use mapping::map_output;
pub use reducing::reduce_output;
pub use testing::test_value;
