ghost use Rattle.task_values.specs.Tests.{TestsAreMade, TestsMakeTheDistance};

/// What a test finds from what it reads is its value, and those of a round make its distance.
/// docs/CLUSTER.md, "Values of names".
pub fn tests_make_the_distance()
    ensures each { TestsAreMade }
    ensures sum { TestsMakeTheDistance }
{}
