ghost use Rattle.std.specs.Prelude.{◌≡◌, string_bytes, IfOk};
ghost use Rattle.node_names.specs.Names.{kind_of, name_text};

use hal_base::Memory;
use std::alloc::Global;

/// What a file on a node holds. Rounds, steps and sources count from 1; tables, blocks, splits and parts from 0.
/// docs/CLUSTER.md, "Names".
#[derive(Clone, Copy, PartialEq, Eq, Hash)]
pub enum Name {
    /// A block of a table.
    Blk {
        table: u32,
        block: u32,
    },
    /// What the map of a source emits for a split in a round, by parts.
    Spill {
        round: u32,
        step: u32,
        source: u32,
        split: u32,
    },
    /// A part of what a step gives in a round.
    Out {
        round: u32,
        step: u32,
        part: u32,
    },
    /// The reducer input cache: what a source gives for a part in every round.
    Ric {
        step: u32,
        source: u32,
        part: u32,
    },
    /// The mapper input cache: a block of a table, kept where it was read.
    Mic {
        table: u32,
        block: u32,
    },
    /// The reducer output cache: a part of what a round gave, kept for the next.
    Roc {
        round: u32,
        part: u32,
    },
}

/// The sort of a name.
#[derive(Clone, Copy, PartialEq, Eq)]
pub enum NameKind {
    Blk,
    Spill,
    Out,
    Ric,
    Mic,
    Roc,
}

impl Name {
    pub fn kind(&self) -> NameKind
        ensures { result ≡ kind_of self.now }
    {
        match self {
            Name::Blk { .. } => NameKind::Blk,
            Name::Spill { .. } => NameKind::Spill,
            Name::Out { .. } => NameKind::Out,
            Name::Ric { .. } => NameKind::Ric,
            Name::Mic { .. } => NameKind::Mic,
            Name::Roc { .. } => NameKind::Roc,
        }
    }
}

/// The name of the file on a node, as `spill-1-2-1-0`. docs/FORMATS.md, "Names of files on nodes".
pub fn file_name(alloc: Global, name: &Name) -> Result<String, Memory>
    ensures { IfOk result (λ text. string_bytes text ≡ name_text name.now) }
{
    Ok(match *name {
        Name::Blk { table, block } => format!(in alloc; "blk-{table}-{block}")?,
        Name::Spill {
            round,
            step,
            source,
            split,
        } => format!(in alloc; "spill-{round}-{step}-{source}-{split}")?,
        Name::Out { round, step, part } => format!(in alloc; "out-{round}-{step}-{part}")?,
        Name::Ric { step, source, part } => format!(in alloc; "ric-{step}-{source}-{part}")?,
        Name::Mic { table, block } => format!(in alloc; "mic-{table}-{block}")?,
        Name::Roc { round, part } => format!(in alloc; "roc-{round}-{part}")?,
    })
}
