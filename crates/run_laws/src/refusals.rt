ghost use Rattle.run_laws.specs.Refusals.{TurnTallies, TurnsHaveCauses};

/// Each refusal of a turn has its cause in the state that it leaves.
pub fn turns_have_causes()
    ensures { TurnsHaveCauses }
{}

/// While a run goes on there are fewer misses and fewer failures of a task than end it.
pub fn turn_tallies()
    ensures { TurnTallies }
{}
