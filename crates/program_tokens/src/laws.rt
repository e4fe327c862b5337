ghost use Rattle.program_tokens.specs.Tokens.{PrintedIsRead, TextHasOneTokenList};

/// A text has one list of tokens.
pub fn a_text_has_one_token_list()
    ensures { TextHasOneTokenList }
{}

/// Tokens that are printed in lines are read from what was printed, each in its line.
pub fn what_is_printed_is_read()
    ensures { PrintedIsRead }
{}
