ghost use Rattle.run_causes.specs.States.{MissesAreStruck, StatesFollowTheSchedule, TurnsAreBehindLoad};

/// Which nodes are up in a state of a run, and which were wiped, is told by the events that are spent, and so is the most
/// that a task can have failed.
pub fn states_follow_the_schedule()
    ensures { StatesFollowTheSchedule }
{}

/// Each read that missed has its line in the journal, and there are no more than 1,000.
pub fn misses_are_struck()
    ensures { MissesAreStruck }
{}

/// A run that has an outcome is a load, in which no read missed, and then turns.
pub fn turns_are_behind_load()
    ensures { TurnsAreBehindLoad }
{}
