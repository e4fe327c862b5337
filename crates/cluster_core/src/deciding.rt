ghost use Rattle.std.specs.Prelude.{◌≡◌, ◌≤◌, IfOk};
ghost use Rattle.run_model.specs.Advance.{is_decided};
ghost use Rattle.cluster_core.specs.Deciding.{decision_of, known_values, word_of};
ghost use Rattle.cluster_core.specs.Turns.{IsOfChain};

use crate::state::State;
use crate::tables::parts_are_up;
use crate::values::all_known;
use counter_report::EndWord;
use fixpoint_test::{Next, decide, global_distance};
use hal_base::{Memory, Shape};
use std::alloc::Global;

impl State {
    /// Whether each part of the last step lies on an up node and, from round 2 on, the value of each test is known.
    pub fn is_decided(&self) -> bool
        ensures decided { result ≡ is_decided self.now.setup self.now.plain }
        ensures chain { IsOfChain self.now }
    {
        parts_are_up(&self.table, &self.shape, self.round)
            && (self.round < 2 || all_known(&self.values))
    }
}

/// The decision on a round by the values of its tests: the word with which the loop ends. `None` where it goes on.
/// docs/SEMANTICS.md, "Distance and end".
pub fn decision(
    alloc: Global,
    shape: &Shape,
    round: u32,
    values: &[Option<u64>],
) -> Result<Option<EndWord>, Memory>
    requires begun { 1 ≤ round }
    requires in_time { round ≤ shape.now.rounds }
    ensures { IfOk result (λ decision. decision ≡ decision_of shape.now round values.now) }
{
    if round < 2 {
        return Ok(word_of(decide(round, None, shape.threshold, shape.exact, shape.rounds)));
    }
    let far = global_distance(&known_values(alloc, values)?);
    Ok(word_of(decide(round, Some(far), shape.threshold, shape.exact, shape.rounds)))
}

/// The values that are known.
fn known_values(alloc: Global, values: &[Option<u64>]) -> Result<Vec<u64>, Memory>
    ensures { IfOk result (λ known. known.items ≡ known_values values.now) }
{
    let mut known = Vec::with_capacity(alloc, values.len())?;
    'values: for value in values {
        if let Some(value) = value {
            known.push(*value)?;
        }
    }
    Ok(known)
}

/// The word of an end. `None` where there is another round.
fn word_of(next: Next) -> Option<EndWord>
    ensures { result ≡ word_of next }
{
    match next {
        Next::Again => None,
        Next::Fixpoint => Some(EndWord::Fixpoint),
        Next::Close => Some(EndWord::Close),
        Next::Limit => Some(EndWord::Limit),
    }
}
