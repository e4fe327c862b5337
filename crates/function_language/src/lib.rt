//! The functions of programs: their trees, read from a text.
#![tactic(auto)]

mod expression;
mod function;
mod laws;
mod reading;
mod signature;
mod statement;
mod tree;

pub use function::{DEPTH, functions};
pub use laws::{a_fault_is_of_no_tree, a_text_is_of_one_tree};
pub use reading::read_functions;
pub use tree::{Block, Expr, Exprs, Function, Param, Row, Statement, Stream, Tree};
