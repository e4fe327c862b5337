ghost use Rattle.task_values.specs.Attempts.{AttemptsAreRight, PartsAreRead, ReadingsAreRight, WritesAreRight};

/// Where all reads of an attempt are answered by values, what it computes for each name that it is to
/// write is the value of the name. docs/CLUSTER.md, "Values of names".
pub fn readings_are_right()
    ensures { ReadingsAreRight }
{}

/// What an attempt computes for each file that it wrote is the value of its name, when it is done and
/// however far it came. docs/CLUSTER.md, "Values of names".
pub fn attempts_are_right()
    ensures done { AttemptsAreRight }
    ensures so_far { WritesAreRight }
{}

/// The parts of the last step, read as values, are what the chain leaves.
/// docs/CLUSTER.md, "Values of names".
pub fn parts_are_read()
    ensures { PartsAreRead }
{}
