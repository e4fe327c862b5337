ghost use Rattle.run_causes.specs.Worked.{WorkedFates};

/// The definitions give for small schedules what was worked out by hand.
pub fn worked_fates()
    ensures { WorkedFates }
{}
