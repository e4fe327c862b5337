ghost use Rattle.std.specs.Prelude.{◌≡◌, [], Some};
ghost use Rattle.hal_outside.specs.DiskSteps.{mem_told};
ghost use Rattle.hal_outside.specs.steps.DiskLaws.{memory_is_sound, memory_shows};

use crate::answers::misses_after;
use crate::disks::Disks;
use crate::faults::DiskFault;
use crate::got::Got;
use crate::log::Log;
use node_names::{Digest, Name};
use std::alloc::Global;
use std::marker::Model;

/// Disks in memory, which keep each call. Contracts see the number of misses and what happened, the newest first. They
/// raise no fault, and each file stays as it was put.
#[derive(Drop)]
pub struct MemDisks {
    pub(crate) log: Log,
    pub(crate) misses: u64,
}

impl Model for MemDisks {
    ghost use Rattle.std.specs.Prelude.{ℕ, List};
    ghost use Rattle.hal_outside.specs.DiskSteps.{Step};

    ghost Value = { ℕ × List Step };

    ghost view = { λ m. (m.misses, m.log) };
}

impl MemDisks {
    /// No file.
    pub fn new(alloc: Global) -> MemDisks
        ensures { result ≡ (0, []) }
    {
        MemDisks {
            log: Log::new(alloc),
            misses: 0,
        }
    }
}

impl Disks for MemDisks {
    ghost faults = { λ m. 0 };

    ghost misses = { λ m. m.0 };

    ghost told = { λ m. Some (mem_told m.1) };

    ghost shows_damage = { λ m. Unit {0} };

    ghost sound = { λ m. Unit {0} };

    fn write(
        &mut self,
        alloc: Global,
        node: u32,
        name: &Name,
        bytes: &[u8],
    ) -> Result<(), DiskFault> {
        Ok(self.log.write(alloc, node, name, bytes)?)
    }

    fn read(
        &mut self,
        alloc: Global,
        node: u32,
        name: &Name,
        want: &Digest,
    ) -> Result<Got, DiskFault> {
        let got = self.log.read(alloc, node, name, want)?;
        self.misses = misses_after(self.misses, &got);
        Ok(got)
    }

    fn remove(&mut self, _alloc: Global, node: u32, name: &Name) -> Result<(), DiskFault> {
        Ok(self.log.remove(node, name)?)
    }

    fn wipe(&mut self, _alloc: Global, node: u32) -> Result<(), DiskFault> {
        Ok(self.log.wipe(node)?)
    }

    ghost damage_shows = { λ disks _. memory_shows disks.1 };

    ghost sound_is = { λ disks _. memory_is_sound disks.1 };

    ghost sound_shows = { λ disks _. tt };
}
