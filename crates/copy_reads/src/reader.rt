ghost use Rattle.std.specs.Prelude.{◌≡◌};
ghost use Rattle.copy_reads.specs.Readers.{part_of};

/// Who reads a need.
#[derive(Clone, Copy)]
pub enum Reader {
    /// An attempt on a node, which reads sections of a part.
    Attempt { node: u32, part: u32 },
    /// The end of a run, which is on no node.
    End,
}

impl Reader {
    /// The part of which sections are read.
    pub fn part(self) -> u32
        ensures { result ≡ part_of self }
    {
        match self {
            Reader::Attempt { part, .. } => part,
            Reader::End => 0,
        }
    }
}
