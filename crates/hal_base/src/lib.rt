//! What every crate speaks of: values, records and tables, their order, their text, and the traits
//! of a program's functions and of sorted streams.
#![tactic(auto)]

mod fields;
mod functions;
mod items;
mod line;
mod memory;
mod number;
mod part;
mod record;
mod shape;
mod stream;
mod table;
mod text;
mod value;

pub use fields::{Fields, Kinds, Schema};
pub use functions::Functions;
pub use items::{CopyIn, Items};
pub use line::{LineFault, read_line, write_line};
pub use memory::Memory;
pub use number::{append_number, read_number};
pub use part::default_part;
pub use record::{Group, Groups, Parts, Record, Records, Tables, compare_rows, sort_rows};
pub use shape::{Counts, Origin, Schemas, Shape, Source, Sources, Step, Steps};
pub use stream::{SortedSlice, SortedStream};
pub use table::{MAX_RECORDS, TableFault, a_table_is_read_from_its_lines, lines, read_table};
pub use text::Text;
pub use value::{Kind, Value, compare};
