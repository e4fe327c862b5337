//! The print of functions: each on a line of its own, and read again as the same functions.
#![tactic(auto)]

mod laws;
mod printer;
mod printing;

pub use laws::what_is_printed_is_read_again;
pub use printing::print_functions;
