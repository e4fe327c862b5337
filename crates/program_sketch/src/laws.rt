ghost use Rattle.program_sketch.specs.Programs.{TextIsOfOneProgram};

/// A text is that of one program.
pub fn a_text_is_of_one_program()
    ensures { TextIsOfOneProgram }
{}
