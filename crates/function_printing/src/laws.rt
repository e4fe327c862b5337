ghost use Rattle.function_printing.specs.Printing.{PrintIsReadAgain};

/// The print of any functions that can be spelled is a text of these functions, each in a line of its own.
pub fn what_is_printed_is_read_again()
    ensures { PrintIsReadAgain }
{}
