ghost use Rattle.run_laws.specs.WithoutLoss.{LoadIsOrderly, QuietAdvances, QuietTurns, QuietTurnsByCalls, ReadyWithoutLoss, StartsStayOrderly, WantedWithoutLoss};

/// Without loss, and where some node is idle, the wanted tasks are those of the round that are not made, in their order.
pub fn wanted_without_loss()
    ensures { WantedWithoutLoss }
{}

/// Without loss, and where some node is idle, a task is ready exactly where each file that it reads lies on an up node.
pub fn ready_without_loss()
    ensures { ReadyWithoutLoss }
{}

/// Nothing is lost in the state after load.
pub fn load_is_orderly()
    ensures { LoadIsOrderly }
{}

/// Nothing is lost by an advance in which no read misses, and it is not refused.
pub fn quiet_advances()
    ensures { QuietAdvances }
{}

/// Nothing is lost by starts.
pub fn starts_stay_orderly()
    ensures { StartsStayOrderly }
{}

/// Nothing is lost by a turn in which no read misses and no node goes, comes or is marked. Such a turn is refused only
/// where a task failed too often.
pub fn quiet_turns()
    ensures { QuietTurns }
{}

/// So it is after the calls of such a turn.
pub fn quiet_turns_by_calls()
    ensures { QuietTurnsByCalls }
{}
