ghost use Rattle.run_laws.specs.Ending.{ActAnswers, MeasureFalls, RunEnds};

/// Each turn that acts lets the measure of a run fall.
pub fn measure_falls()
    ensures { MeasureFalls }
{}

/// Every run ends: after as many turns as its measure allows it is finished or refused.
pub fn run_ends()
    ensures { RunEnds }
{}

/// Where a turn goes on its round is not decided, and an act with nothing left to do is refused by its cause.
pub fn act_answers()
    ensures { ActAnswers }
{}
