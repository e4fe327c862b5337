ghost use Rattle.run_laws.specs.Turns.{DecidesWhereDecided, LoadThenTurns, OneTurnMore, SameOutcome, TurnsByCalls};

/// So many turns and then one more, call by call, are one turn more, whatever the last has come to so far.
pub fn one_turn_more()
    ensures { OneTurnMore }
{}

/// What a turn ends with, the run ends with.
pub fn same_outcome()
    ensures { SameOutcome }
{}

/// Where a round is not decided, a turn does not look at the decision.
pub fn decides_where_decided()
    ensures { DecidesWhereDecided }
{}

/// Load and then turns, call by call, are a run.
pub fn load_then_turns()
    ensures { LoadThenTurns }
{}

/// After the calls of a turn the state is one that a run reaches. Where the turn acted its measure is less, and where it was
/// refused the cause shows.
pub fn turns_by_calls()
    ensures { TurnsByCalls }
{}
