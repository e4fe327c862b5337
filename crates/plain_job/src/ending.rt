use hal_base::Parts;

/// How a chain ends: by a program that stops exactly, by a threshold of its own, or in the last
/// round that it may have.
#[derive(Clone, Copy, Debug, PartialEq, Eq)]
pub enum End {
    Fixpoint,
    Close,
    Limit,
}

/// What a chain leaves: the parts of the last step in its last round, the number of that round, and
/// how it ended.
#[derive(Drop)]
pub struct PlainResult {
    pub parts: Parts,
    pub rounds: u32,
    pub end: End,
}
