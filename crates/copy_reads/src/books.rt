ghost use Rattle.std.specs.Prelude.{◌≡◌, ◌<◌, OnErr, OnOk};
ghost use Rattle.copy_reads.specs.Books.{struck_in};

use counter_report::{Entry, Journal};
use hal_base::Memory;
use node_files::FileRef;
use replica_table::Table;

/// The copies of a cluster, its journal, and how many reads missed so far: of each miss the journal has a line.
#[derive(Drop)]
pub struct Books {
    pub table: Table,
    pub journal: Journal,
    pub misses: u32,
}

impl Books {
    /// Strikes the copy of a file that was missed, and notes that.
    pub fn note_miss(&mut self, file: &FileRef) -> Result<(), Memory>
        requires node { file.now.node < self.old.table.nodes }
        requires few { self.old.misses < 1000 }
        ensures struck { OnOk result (self.new ≡ struck_in file.now self.old) }
        ensures kept { OnErr result (self.new ≡ self.old) }
    {
        self.journal.push(Entry::Struck {
            name: file.name,
            node: file.node,
        })?;
        self.table.strike(&file.name, file.node);
        self.misses += 1;
        Ok(())
    }
}
