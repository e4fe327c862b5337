ghost use Rattle.function_meaning.specs.NeverStops.{TypedFunctionsNeverStop};

/// Functions in which the check finds no fault, and whose literals are values, meet no wrong kind, whatever
/// values of the kinds that they take they are given, and emit records of values of the kinds behind their arrows.
/// docs/LANGUAGE.md, "What functions mean".
pub fn typed_functions_never_stop()
    ensures { TypedFunctionsNeverStop }
{}
