ghost use Rattle.run_laws.specs.States.{LoadReaches, TurnReaches};

/// The state after load is one that a run reaches.
pub fn load_reaches()
    ensures { LoadReaches }
{}

/// A turn leads from such a state to such a state, however it goes, also where the run ends or is refused.
pub fn turn_reaches()
    ensures { TurnReaches }
{}
