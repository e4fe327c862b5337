ghost use Rattle.program_tokens.specs.Texts.{FaultIsOfNoTree, IsOfOneTree};
ghost use Rattle.function_language.specs.Spelled.{only_functions_pieces};

/// A text is that of one list of functions.
pub fn a_text_is_of_one_tree()
    ensures { IsOfOneTree only_functions_pieces }
{}

/// A text with a fault is that of no functions, and its fault is in one line.
pub fn a_fault_is_of_no_tree()
    ensures { FaultIsOfNoTree only_functions_pieces }
{}
