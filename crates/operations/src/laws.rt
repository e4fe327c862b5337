ghost use Rattle.operations.specs.Laws.{ValuesGiveValues};

/// What an operation gives for numbers of 64 bits and texts of at most 255 printable bytes is one of these.
/// docs/LANGUAGE.md, "Operations".
pub fn values_give_values()
    ensures { ValuesGiveValues }
{}
