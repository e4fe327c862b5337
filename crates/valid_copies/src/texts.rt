ghost use Rattle.valid_copies.specs.Telling.{BytesTellTheValue, TextIsOfTheValue, ValueTellsTheText};

/// The bytes of a file are the text of its name exactly where they are the text of the name's value, if it has one,
/// and they stand for that value alone. docs/CLUSTER.md, "Valid copies".
pub fn bytes_tell_the_value()
    ensures value { BytesTellTheValue }
    ensures text { ValueTellsTheText }
    ensures only { TextIsOfTheValue }
{}
