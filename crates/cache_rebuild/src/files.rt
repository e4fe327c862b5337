ghost use Rattle.std.specs.Prelude.{◌≡◌};
ghost use Rattle.cache_rebuild.specs.steps.Files.{count_of, name_of};

use node_names::Name;

/// Files that are read one after another, and differ in one number at most.
#[derive(Clone, Copy)]
pub enum Files {
    /// This file alone.
    Single(Name),
    /// The spills of a source in a round.
    Spills {
        round: u32,
        step: u32,
        source: u32,
        splits: u32,
    },
    /// The parts of what a step gives in a round.
    Parts {
        round: u32,
        step: u32,
        parts: u32,
    },
}

impl Files {
    pub fn count(&self) -> u32
        ensures { result ≡ count_of self.now }
    {
        match *self {
            Files::Single(_) => 1,
            Files::Spills { splits, .. } => splits,
            Files::Parts { parts, .. } => parts,
        }
    }

    /// The file of a number below the count.
    pub fn name(&self, number: u32) -> Name
        ensures { result ≡ name_of self.now number }
    {
        match *self {
            Files::Single(name) => name,
            Files::Spills {
                round,
                step,
                source,
                ..
            } => Name::Spill {
                round,
                step,
                source,
                split: number,
            },
            Files::Parts { round, step, .. } => Name::Out {
                round,
                step,
                part: number,
            },
        }
    }
}
