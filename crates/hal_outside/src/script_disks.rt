ghost use Rattle.std.specs.Prelude.{◌≡◌, [], Some, OnOk, OnErr};
ghost use Rattle.hal_outside.specs.Damage.{ShowsDamage};
ghost use Rattle.hal_outside.specs.DiskSteps.{mem_told, script_told};
ghost use Rattle.hal_outside.specs.steps.DiskLogs.{Spoils};

use crate::answers::{has_digest, misses_after};
use crate::disks::Disks;
use crate::faults::DiskFault;
use crate::got::Got;
use crate::log::{Cause, Deed, Log};
use crate::mem_disks::MemDisks;
use crate::script::{Acts, Script};
use hal_base::{Items, Memory};
use node_names::{Digest, Name};
use sha2::{Digest as Hasher, Sha256};
use std::alloc::Global;
use std::marker::Model;

/// Disks in memory on which things go wrong by a script. Contracts see the counts and what happened, the newest first.
#[derive(Drop)]
pub struct ScriptDisks {
    script: Script,
    log: Log,
    misses: u64,
}

impl Model for ScriptDisks {
    ghost use Rattle.hal_outside.specs.DiskSteps.{Scripted};

    ghost Value = { Scripted };

    ghost view = { λ m. record { faults = m.script.faults; misses = m.misses; steps = m.log } };
}

impl ScriptDisks {
    /// These disks under a script. What lies there counts as put, and no call as made.
    #[tactic(auto, using(crate::proofs::Settling::settled_now, crate::proofs::Settling::settled_put, crate::proofs::Settling::settled_calls, crate::proofs::Settling::settled_shows))]
    pub fn new(inner: MemDisks, acts: Acts) -> ScriptDisks
        ensures faults { result.faults ≡ 0 }
        ensures misses { result.misses ≡ inner.0 }
        ensures put { (script_told result.steps).put ≡ (mem_told inner.1).put }
        ensures now { (script_told result.steps).now ≡ (mem_told inner.1).now }
        ensures calls { (script_told result.steps).calls ≡ [] }
        ensures damage_shown { ShowsDamage (script_told result.steps) }
    {
        let mut log = inner.log;
        log.settle();
        ScriptDisks {
            script: Script::new(acts),
            log,
            misses: inner.misses,
        }
    }

    /// How many calls the script failed.
    pub fn faults(&self) -> u64
        ensures { result ≡ self.now.faults }
    {
        self.script.faults
    }

    /// How many reads found no file, or one with another digest.
    pub fn misses(&self) -> u64
        ensures { result ≡ self.now.misses }
    {
        self.misses
    }

    /// The disks without the script. What lies there counts as put, and each damage as a call.
    pub fn into_inner(self) -> MemDisks
        ensures misses { result.0 ≡ self.misses }
        ensures now { (mem_told result.1).now ≡ (script_told self.steps).now }
    {
        MemDisks {
            log: self.log,
            misses: self.misses,
        }
    }
}

impl Disks for ScriptDisks {
    ghost faults = { λ m. m.faults };

    ghost misses = { λ m. m.misses };

    ghost told = { λ m. Some (script_told m.steps) };

    ghost shows_damage = { λ m. ShowsDamage (script_told m.steps) };

    ghost sound = { λ _. ⊥ };

    fn write(
        &mut self,
        alloc: Global,
        node: u32,
        name: &Name,
        bytes: &[u8],
    ) -> Result<(), DiskFault> {
        self.script.begin_write()?;
        let first = !self.log.was_written(node, name);
        self.log.write(alloc, node, name, bytes)?;
        if self.script.spoils(node, name, first) {
            spoil(alloc, &mut self.log, node, name, bytes)?;
        }
        Ok(())
    }

    fn read(
        &mut self,
        alloc: Global,
        node: u32,
        name: &Name,
        want: &Digest,
    ) -> Result<Got, DiskFault> {
        self.script.begin_call()?;
        let got = self.log.read(alloc, node, name, want)?;
        self.misses = misses_after(self.misses, &got);
        Ok(got)
    }

    fn remove(&mut self, _alloc: Global, node: u32, name: &Name) -> Result<(), DiskFault> {
        self.script.begin_call()?;
        Ok(self.log.remove(node, name)?)
    }

    fn wipe(&mut self, _alloc: Global, node: u32) -> Result<(), DiskFault> {
        self.script.begin_call()?;
        Ok(self.log.wipe(node)?)
    }

    ghost damage_shows = { λ disks shows. shows };

    ghost sound_is = { λ disks sound. absurd sound };

    ghost sound_shows = { λ disks sound. absurd sound };
}

/// Changes a byte of a file that was written with these bytes. Where it is empty, or would have its digest all the same, it
/// is taken away. After `Memory` nothing has changed.
fn spoil(alloc: Global, log: &mut Log, node: u32, name: &Name, bytes: &[u8]) -> Result<(), Memory>
    ensures spoilt { OnOk result (Spoils node name.now bytes.now log.old log.new) }
    ensures unchanged { OnErr result (log.new ≡ log.old) }
{
    let mut spoilt = Vec::from_slice(alloc, bytes)?;
    if spoilt.len() > 0 {
        spoilt[0] ^= 1;
        let digest = Digest(Sha256::digest(bytes));
        if !has_digest(spoilt.as_slice(), &digest) {
            let bytes = Items::from_vec(spoilt);
            let name = *name;
            return log.add(Cause::Damage, Deed::Write { node, name, bytes });
        }
    }
    log.add(Cause::Damage, Deed::Remove { node, name: *name })
}
