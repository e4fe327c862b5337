//! The lives of caches as types: what is being made, what may be used in which round, what is gone and what is stale.
#![tactic(auto)]

mod laws;
mod lease;
mod lives;
mod rounds;
mod token;

pub use laws::{lives_end_where_caches_go, worked_lives};
pub use lease::{Lease, Unfit};
pub use lives::{Aged, Away, Filling, Sealed, Struck};
pub use rounds::Returned;
pub use token::RoundToken;
