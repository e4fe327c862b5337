ghost use Rattle.std.specs.Prelude.{◌≡◌, true, false, IfErr, IfOk, OnErr, OnOk};
ghost use Rattle.cache_states.specs.Lives as spec;
ghost use Rattle.cache_states.specs.Lives.{is_fit};
ghost use Rattle.cache_states.specs.Outcomes.{ComesBack, IsUnfit};

use crate::lease::{Lease, Unfit};
use crate::lives::{Aged, Away, Sealed};
use crate::token::RoundToken;
use node_names::Name;

/// What a cache is when its node returned. docs/CLUSTER.md, "Lives of caches".
pub enum Returned {
    Sealed(Sealed),
    Aged(Aged),
}

impl Sealed {
    /// Lends the cache for the present round, where it is fit for it.
    pub fn lend<'a>(&'a self, now: &'a RoundToken) -> Result<Lease<'a>, Unfit>
        ensures lent { IfOk result (λ lease. lease ≡ record { file = self.now; round = now.now }) }
        ensures fit { OnOk result (is_fit self.now.name now.now ≡ true) }
        ensures unfit { IfErr result (IsUnfit self.now.name now.now) }
    {
        match made_in(&self.file.name) {
            Some(made) if u64::from(made) + 1 != u64::from(now.round()) => Err(Unfit {
                made,
                now: now.round(),
            }),
            _ => Ok(Lease { sealed: self, now }),
        }
    }

    /// Whether it is stale in the present round; else it is as before.
    pub fn age(self, now: &RoundToken) -> Result<Aged, Sealed>
        ensures aged { IfOk result (λ aged. aged ≡ self) }
        ensures kept { IfErr result (λ kept. kept ≡ self) }
        ensures stale { OnOk result (spec.is_stale self.name now.now ≡ true) }
        ensures not_stale { OnErr result (spec.is_stale self.name now.now ≡ false) }
    {
        if is_stale(&self.file.name, now) {
            Ok(Aged { file: self.file })
        } else {
            Err(self)
        }
    }
}

impl Away {
    /// Its node returned with its files.
    pub fn back(self, now: &RoundToken) -> Returned
        ensures { ComesBack self now.now result }
    {
        if is_stale(&self.file.name, now) {
            Returned::Aged(Aged { file: self.file })
        } else {
            Returned::Sealed(Sealed { file: self.file })
        }
    }
}

/// The round of an output cache.
fn made_in(name: &Name) -> Option<u32>
    ensures { result ≡ spec.made_in name.now }
{
    match *name {
        Name::Roc { round, .. } => Some(round),
        Name::Ric { .. }
        | Name::Mic { .. }
        | Name::Blk { .. }
        | Name::Spill { .. }
        | Name::Out { .. } => None,
    }
}

/// Whether a cache is stale in the present round.
fn is_stale(name: &Name, now: &RoundToken) -> bool
    ensures { result ≡ spec.is_stale name.now now.now }
{
    match made_in(name) {
        Some(made) => u64::from(made) + 1 < u64::from(now.round()),
        None => false,
    }
}
