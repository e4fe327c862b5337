ghost use Rattle.run_laws.specs.Standing.{ActRefuses, NoStandstill, NoneReady};

/// Where nothing more happens and nothing can start, no node is up or a block is missing that is needed.
pub fn no_standstill()
    ensures { NoStandstill }
{}

/// Then the run is refused, with the one or the other as its cause.
pub fn act_refuses()
    ensures { ActRefuses }
{}

/// Where no node is idle, no task is ready.
pub fn none_ready()
    ensures { NoneReady }
{}
