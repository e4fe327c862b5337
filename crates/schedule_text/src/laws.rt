ghost use Rattle.std.specs.Prelude.{ℕ, List};
ghost use Rattle.schedule_text.specs.Schedules.{HasOneOutcome};
ghost use Rattle.schedule_text.specs.Worked.{WorkedHeads, WorkedLines, WorkedSchedules};

/// Each text is of one schedule, or has one first fault.
pub fn each_text_has_one_outcome()
    ensures { (text : List ℕ) → HasOneOutcome text }
{}

/// The definitions say of texts what was found by hand.
pub fn worked_texts()
    ensures schedules { WorkedSchedules }
    ensures lines { WorkedLines }
    ensures heads { WorkedHeads }
{}
