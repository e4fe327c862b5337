ghost use Rattle.row_tests.specs.Names.{WorkedNames};
ghost use Rattle.row_tests.specs.Rows.{WorkedRows};

/// The definitions of the chain give what was computed by hand for the worked programs.
pub fn worked_rows()
    ensures { WorkedRows }
{}

/// The definitions of what files on nodes hold give what was computed by hand for a worked program.
pub fn worked_names()
    ensures { WorkedNames }
{}
