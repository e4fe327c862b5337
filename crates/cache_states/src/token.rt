ghost use Rattle.std.specs.Prelude.{◌≡◌, ◌+◌, ◌≤◌};

use std::marker::Model;

/// The present round. The token of the next round is made of it, and it cannot be copied, so that there is one present
/// round at a time. docs/CLUSTER.md, "Lives of caches".
#[derive(Drop)]
pub struct RoundToken {
    round: u32,
}

impl Model for RoundToken {
    ghost use Rattle.std.specs.Prelude.{ℕ, ◌≤◌};

    ghost Value = { ℕ };

    ghost view = { λ token. token.round };

    ghost invariant = { λ token. (1 ≤ token.round) × (token.round ≤ 10001) };
}

impl RoundToken {
    /// The token of round 1.
    pub fn first() -> RoundToken
        ensures { result ≡ 1 }
    {
        RoundToken { round: 1 }
    }

    /// The token of the round that follows.
    pub fn next(self) -> RoundToken
        requires { self ≤ 10000 }
        ensures { result ≡ self + 1 }
    {
        RoundToken {
            round: self.round + 1,
        }
    }

    /// The number of the round.
    pub fn round(&self) -> u32
        ensures number { result ≡ self.now }
        ensures within { (1 ≤ self.now) × (self.now ≤ 10001) }
    {
        self.round
    }
}
