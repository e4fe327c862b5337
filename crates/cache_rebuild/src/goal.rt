use replica_table::NodeSet;

/// What is to be reached: a round, of which each part of the last step is to lie on an up node, and each test is to be known.
/// Rounds count from 1.
#[derive(Clone, Copy)]
pub struct Goal {
    pub round: u32,
    /// The parts whose test has a known value; with one test for all parts that is part 0.
    pub known: NodeSet,
}
