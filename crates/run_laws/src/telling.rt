ghost use Rattle.run_laws.specs.Telling.{EndsAreTold, FailuresAreTold};

/// The last line of the journal of a run that is finished tells its end, and its round.
pub fn ends_are_told()
    ensures { EndsAreTold }
{}

/// Each task has as many failures as the journal has lines of them.
pub fn failures_are_told()
    ensures { FailuresAreTold }
{}
