ghost use Rattle.std.specs.Prelude.{◌≤◌, MatchBool};
ghost use Rattle.fixpoint_test.specs.Decisions.{Decides, IsFar, IsGiven, IsNear};

/// What comes after a round: another one, or the end, because a program that stops exactly left the
/// same output again, because the output is close enough to the one before, or because there may be
/// no further round.
#[derive(Clone, Copy, Debug, PartialEq, Eq)]
pub enum Next {
    Again,
    Fixpoint,
    Close,
    Limit,
}

/// What comes after a round whose output is this far from that of the round before. Only from the
/// second round on is there one to compare with. `limit` is the greatest round.
/// docs/SEMANTICS.md, "Distance and end".
pub fn decide(round: u32, total: Option<u64>, threshold: u64, exact: bool, limit: u32) -> Next
    requires round { (1 ≤ round) × (round ≤ limit) }
    requires given { IsGiven round total }
    ensures { Decides round total threshold exact limit result }
{
    if is_near(total, threshold) {
        return if exact { Next::Fixpoint } else { Next::Close };
    }
    if round == limit {
        Next::Limit
    } else {
        Next::Again
    }
}

fn is_near(total: Option<u64>, threshold: u64) -> bool
    ensures { MatchBool result (IsNear total threshold) (IsFar total threshold) }
{
    match total {
        Some(far) => far < threshold,
        None => false,
    }
}
