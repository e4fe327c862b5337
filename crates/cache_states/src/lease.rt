ghost use Rattle.std.specs.Prelude.{◌≡◌, true};
ghost use Rattle.cache_states.specs.Lives.{is_fit};

use crate::lives::Sealed;
use crate::token::RoundToken;
use node_files::FileRef;
use std::marker::Model;

/// The leave to use a cache in the present round. It borrows the cache and the token of the round, so it ends before the
/// next round begins. docs/CLUSTER.md, "Lives of caches".
#[derive(Drop)]
pub struct Lease<'a> {
    pub(crate) sealed: &'a Sealed,
    pub(crate) now: &'a RoundToken,
}

impl<'a> Model for Lease<'a> {
    ghost use Rattle.std.specs.Prelude.{◌≡◌, true};
    ghost use Rattle.cache_states.specs.Lives.{Lent, is_fit};

    ghost Value = { Lent };

    ghost view = { λ lease. record { file = lease.sealed.now; round = lease.now.now } };

    ghost invariant = { λ lease. is_fit lease.sealed.now.name lease.now.now ≡ true };
}

impl<'a> Lease<'a> {
    /// The file of the cache. Whether it can still be read is not known.
    pub fn file(&self) -> &FileRef
        ensures file { result.now ≡ self.entry.now.file }
        ensures fit { is_fit self.entry.now.file.name self.entry.now.round ≡ true }
    {
        let sealed = self.sealed;
        &sealed.file
    }
}

/// Why a cache is not lent: it was made in a round that is not the one before the present one.
#[derive(Clone, Copy)]
pub struct Unfit {
    pub made: u32,
    pub now: u32,
}
