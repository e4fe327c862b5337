ghost use Rattle.cluster_tests.specs.Vectors.{WorkedVectors};

/// The definitions give the bytes that were written down by hand.
pub fn worked_vectors()
    ensures { WorkedVectors }
{}
