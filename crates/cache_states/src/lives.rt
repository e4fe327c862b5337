ghost use Rattle.std.specs.Prelude.{◌≡◌, ◌≤◌, IfErr, IsSome, OnErr, OnOk};
ghost use Rattle.hal_outside.specs.DiskCalls as call;
ghost use Rattle.hal_outside.specs.DiskTold.{Done, NotDone};
ghost use Rattle.hal_outside.specs.Told.{OnTold, Rose};
ghost use Rattle.node_files.specs.Faults.{AtDevice};
ghost use Rattle.cache_states.specs.Lives.{IsCache};

use hal_outside::Disks;
use node_files::{Fault, FileRef};
use node_names::Name;
use std::alloc::Global;
use std::marker::Model;

/// A cache whose file is to be written on a node. docs/CLUSTER.md, "Lives of caches".
#[derive(Drop)]
pub struct Filling {
    name: Name,
    node: u32,
}

impl Model for Filling {
    ghost use Rattle.cache_states.specs.Lives.{IsCache, Place};

    ghost Value = { Place };

    ghost view = { λ filling. record { name = filling.name; node = filling.node } };

    ghost invariant = { λ filling. IsCache filling.name };
}

impl Filling {
    /// A cache of this name is to be written on this node.
    pub fn begin(name: Name, node: u32) -> Filling
        requires { IsCache name }
        ensures { result ≡ record { name = name; node = node } }
    {
        Filling { name, node }
    }

    /// Its file was written.
    pub fn seal(self, file: FileRef) -> Sealed
        requires name { file.name ≡ self.name }
        requires node { file.node ≡ self.node }
        ensures { result ≡ file }
    {
        Sealed { file }
    }
}

/// A cache whose file was written, with the digest of its bytes. Whether the file can still be read is not known.
/// docs/CLUSTER.md, "Lives of caches".
#[derive(Drop)]
pub struct Sealed {
    pub(crate) file: FileRef,
}

impl Model for Sealed {
    ghost use Rattle.node_files.specs.declared.files.FileRef.{FileRef as File};
    ghost use Rattle.cache_states.specs.Lives.{IsCache};

    ghost Value = { File };

    ghost view = { λ sealed. sealed.file };

    ghost invariant = { λ sealed. IsCache sealed.file.name };
}

impl Sealed {
    /// A read of its file missed.
    pub fn strike(self) -> Struck
        ensures { result ≡ self }
    {
        Struck { file: self.file }
    }

    /// Its node is lost.
    pub fn away(self) -> Away
        ensures { result ≡ self }
    {
        Away { file: self.file }
    }
}

/// A cache whose node is lost. docs/CLUSTER.md, "Lives of caches".
#[derive(Drop)]
pub struct Away {
    pub(crate) file: FileRef,
}

impl Model for Away {
    ghost use Rattle.node_files.specs.declared.files.FileRef.{FileRef as File};
    ghost use Rattle.cache_states.specs.Lives.{IsCache};

    ghost Value = { File };

    ghost view = { λ away. away.file };

    ghost invariant = { λ away. IsCache away.file.name };
}

impl Away {
    /// The files of its node are gone.
    pub fn wiped(self) -> Struck
        ensures { result ≡ self }
    {
        Struck { file: self.file }
    }
}

/// A cache whose file is gone, or was spoilt. docs/CLUSTER.md, "Lives of caches".
#[derive(Drop)]
pub struct Struck {
    pub(crate) file: FileRef,
}

impl Model for Struck {
    ghost use Rattle.node_files.specs.declared.files.FileRef.{FileRef as File};
    ghost use Rattle.cache_states.specs.Lives.{IsCache};

    ghost Value = { File };

    ghost view = { λ struck. struck.file };

    ghost invariant = { λ struck. IsCache struck.file.name };
}

impl Struck {
    /// It is to be written again, on this node.
    pub fn refill(self, node: u32) -> Filling
        ensures { result ≡ record { name = self.name; node = node } }
    {
        Filling {
            name: self.file.name,
            node,
        }
    }
}

/// A cache that is stale: of no use in this round, nor in any later one. It is spent by `retire` or by `leave`.
/// docs/CLUSTER.md, "Lives of caches".
pub struct Aged {
    pub(crate) file: FileRef,
}

impl Model for Aged {
    ghost use Rattle.node_files.specs.declared.files.FileRef.{FileRef as File};
    ghost use Rattle.cache_states.specs.Lives.{IsCache};

    ghost Value = { File };

    ghost view = { λ aged. aged.file };

    ghost invariant = { λ aged. IsCache aged.file.name };
}

impl Aged {
    /// Removes the file, by one remove and no other call. After a fault the cache is handed back.
    pub fn retire<D: Disks>(self, alloc: Global, disks: &mut D) -> Result<(), (Aged, Fault)>
        ensures kept { IfErr result (λ left. left.0 ≡ self) }
        ensures faults_stay { D.faults disks.old ≤ D.faults disks.new }
        ensures misses_stay { D.misses disks.old ≤ D.misses disks.new }
        ensures device { IfErr result (λ left. AtDevice left.1 (Rose (D.faults disks.old) (D.faults disks.new))) }
        ensures not_missed { IsSome (D.told disks.old) → D.misses disks.new ≡ D.misses disks.old }
        ensures done { OnOk result (OnTold (Done (call.Remove self.node self.name)) (D.told disks.old) (D.told disks.new)) }
        ensures failed { OnErr result (OnTold (NotDone (call.Remove self.node self.name)) (D.told disks.old) (D.told disks.new)) }
        ensures damage_shown { D.shows_damage disks.old → D.shows_damage disks.new }
        ensures soundness_kept { D.sound disks.old → D.sound disks.new }
    {
        match disks.remove(alloc, self.file.node, &self.file.name) {
            Ok(()) => {
                let Aged { file: _ } = self;
                Ok(())
            }
            Err(fault) => Err((self, Fault::from(fault))),
        }
    }

    /// Gives it up where its file was not removed, for this fault. The file stays as it is.
    pub fn leave(self, _fault: Fault) -> FileRef
        ensures { result ≡ self }
    {
        let Aged { file } = self;
        file
    }
}
