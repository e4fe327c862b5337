ghost use Rattle.run_laws.specs.Blocks.{BlockCopiesKeep};

/// A copy of a block goes by a miss or a wipe alone, and each of these has its line in the journal.
pub fn block_copies_keep()
    ensures { BlockCopiesKeep }
{}
