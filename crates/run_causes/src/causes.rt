ghost use Rattle.run_causes.specs.Causes.{NeverRefused, RefusalsShow};

/// A task failed as often as the schedule let it, all nodes are down after the schedule, no copy of a block is left after it,
/// or 1,000 reads missed.
pub fn refusals_show()
    ensures { RefusalsShow }
{}

/// Where no read missed, fewer nodes go than a block has copies and fewer failures come than end a run, no run is refused.
pub fn never_refused()
    ensures { NeverRefused }
{}
