ghost use Rattle.std.specs.Prelude.{◌≡◌, None};

use crate::folder_files::FolderFiles;
use hal_base::Memory;
use hal_outside::{DiskFault, Disks, Files, Got, answer_with, misses_after};
use node_names::{Digest, Name, file_name};
use std::alloc::Global;
use std::rt;

/// The disks of nodes in folders of the current folder: the files of node N lie in `haloop-nodes/node-N`, under their
/// names. It counts the calls that a device failed, and tells each on the standard error, and it counts the reads that
/// found no file, or one with another digest; both counts stop at their last value. docs/CLUSTER.md, "Disks".
#[derive(Drop)]
pub struct FolderDisks<R> {
    files: FolderFiles<R>,
    misses: u64,
}

impl<R> FolderDisks<R> {
    /// Both counts at 0.
    pub fn new(runtime: R) -> FolderDisks<R>
        ensures faults { result.files.faults ≡ 0 }
        ensures misses { result.misses ≡ 0 }
    {
        FolderDisks {
            files: FolderFiles::new(runtime),
            misses: 0,
        }
    }
}

impl<R: rt::Files + Eprint> Disks for FolderDisks<R> {
    ghost faults = { λ d. d.files.faults };

    ghost misses = { λ d. d.misses };

    ghost told = { λ _. None };

    ghost shows_damage = { λ _. ⊥ };

    ghost sound = { λ _. ⊥ };

    fn write(
        &mut self,
        alloc: Global,
        node: u32,
        name: &Name,
        bytes: &[u8],
    ) -> Result<(), DiskFault> {
        let path = file_path(alloc, node, name)?;
        Ok(self.files.write(path.as_str(), bytes)?)
    }

    fn read(
        &mut self,
        alloc: Global,
        node: u32,
        name: &Name,
        want: &Digest,
    ) -> Result<Got, DiskFault> {
        let path = file_path(alloc, node, name)?;
        let got = match self.files.read(alloc, path.as_str())? {
            Some(bytes) => answer_with(bytes, want),
            None => Got::Gone,
        };
        self.misses = misses_after(self.misses, &got);
        Ok(got)
    }

    fn remove(&mut self, alloc: Global, node: u32, name: &Name) -> Result<(), DiskFault> {
        let path = file_path(alloc, node, name)?;
        Ok(self.files.remove(path.as_str())?)
    }

    fn wipe(&mut self, alloc: Global, node: u32) -> Result<(), DiskFault> {
        let path = folder_path(alloc, node)?;
        Ok(self.files.remove_folder(alloc, path.as_str())?)
    }

    ghost damage_shows = { λ _ shows. absurd shows };

    ghost sound_is = { λ _ sound. absurd sound };

    ghost sound_shows = { λ _ sound. sound };
}

/// The folder of a node.
fn folder_path(alloc: Global, node: u32) -> Result<String, Memory> {
    Ok(format!(in alloc; "haloop-nodes/node-{node}")?)
}

/// The path of a file of a node.
fn file_path(alloc: Global, node: u32, name: &Name) -> Result<String, Memory> {
    let file = file_name(alloc, name)?;
    Ok(format!(in alloc; "haloop-nodes/node-{node}/{file}")?)
}

#[cfg(test)]
mod tests;
