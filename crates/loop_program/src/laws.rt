ghost use Rattle.loop_program.specs.Programs.{OneThingIsWrong};

/// One thing is wrong with a text, in one line.
pub fn one_thing_is_wrong()
    ensures { OneThingIsWrong }
{}
