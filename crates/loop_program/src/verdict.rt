/// Whether a cache is had, or the first word that refuses it. docs/LANGUAGE.md, "Caches".
#[derive(Clone, Copy)]
pub enum Verdict {
    /// The cache is had.
    Applies,
    /// The source is the state, or the output of a step.
    NotInvariant,
    /// The source is a table that is read in one round alone.
    OneRoundOnly,
    /// The word `round` stands in the map of the source.
    UsesRound,
    /// It stands in the partition of the step.
    PartitionUsesRound,
    /// The reduce of the last step emits at another key than its own.
    EmitsOtherKey,
    /// The program does not ask for the cache.
    NotAsked,
}
