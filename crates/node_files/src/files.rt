ghost use Rattle.std.specs.Prelude.{◌≡◌, ◌<◌, ◌≤◌, IfOk, IfErr, IfSome, IsSome, OnOk, OnErr};
ghost use Rattle.hal_outside.specs.Told.{OnTold, Rose};
ghost use Rattle.hal_outside.specs.DiskFiles.{file_at};
ghost use Rattle.hal_outside.specs.DiskCalls as call;
ghost use Rattle.hal_outside.specs.DiskTold.{Done, Lacks, NotDone, NotRead};
ghost use Rattle.node_files.specs.Faults.{AtDevice};
ghost use Rattle.node_files.specs.KeptFiles.{HasDigest, IsFetched, IsFound, OnMissed, fetched_of, file_of};

use crate::fault::Fault;
use hal_outside::{Disks, Got};
use node_names::{Digest, Name};
use sha2::{Digest as Hasher, Sha256};
use std::alloc::Global;

/// A file of a node, with the SHA-256 of its bytes. docs/CLUSTER.md, "Files with their digests".
#[derive(Clone, Copy)]
pub struct FileRef {
    pub node: u32,
    pub name: Name,
    pub digest: Digest,
}

/// What was found of a file.
#[derive(Drop)]
pub enum Fetched {
    /// Its bytes, which have the kept digest.
    Bytes(Vec<u8>),
    /// It is gone, or has another digest.
    Missed,
}

/// Sets a file of a node to these bytes, by one write and no other call.
pub fn put<D: Disks>(
    alloc: Global,
    disks: &mut D,
    node: u32,
    name: &Name,
    bytes: &[u8],
) -> Result<FileRef, Fault>
    ensures file { IfOk result (λ file. file ≡ file_of node name.now bytes.now) }
    ensures faults_stay { D.faults disks.old ≤ D.faults disks.new }
    ensures misses_stay { D.misses disks.old ≤ D.misses disks.new }
    ensures device { IfErr result (λ fault. AtDevice fault (Rose (D.faults disks.old) (D.faults disks.new))) }
    ensures not_missed { IsSome (D.told disks.old) → D.misses disks.new ≡ D.misses disks.old }
    ensures done { OnOk result (OnTold (Done (call.Write node name.now bytes.now)) (D.told disks.old) (D.told disks.new)) }
    ensures failed { OnErr result (OnTold (NotDone (call.Write node name.now bytes.now)) (D.told disks.old) (D.told disks.new)) }
    ensures damage_shown { D.shows_damage disks.old → D.shows_damage disks.new }
    ensures soundness_kept { D.sound disks.old → D.sound disks.new }
{
    disks.write(alloc, node, name, bytes)?;
    Ok(FileRef {
        node,
        name: *name,
        digest: Digest(Sha256::digest(bytes)),
    })
}

/// The bytes of a file, by one read with the kept digest and no other call.
pub fn fetch<D: Disks>(alloc: Global, disks: &mut D, file: &FileRef) -> Result<Fetched, Fault>
    ensures kept { IfOk result (HasDigest file.now.digest.0) }
    ensures faults_stay { D.faults disks.old ≤ D.faults disks.new }
    ensures misses_stay { D.misses disks.old ≤ D.misses disks.new }
    ensures device { IfErr result (λ fault. AtDevice fault (Rose (D.faults disks.old) (D.faults disks.new))) }
    ensures missed { IfOk result (λ fetched. OnMissed fetched (Rose (D.misses disks.old) (D.misses disks.new))) }
    ensures only_missed { IfSome (D.told disks.new) (λ new. D.misses disks.old < D.misses disks.new → Lacks (file_at new.now file.now.node file.now.name) file.now.digest.0) }
    ensures found { IfOk result (λ fetched. IfSome (D.told disks.new) (λ new. IsFound (file_at new.now file.now.node file.now.name) file.now.digest.0 fetched)) }
    ensures done { IfOk result (λ fetched. OnTold (IsFetched file.now fetched) (D.told disks.old) (D.told disks.new)) }
    ensures failed { OnErr result (OnTold (NotRead file.now.node file.now.name file.now.digest.0 (Rose (D.misses disks.old) (D.misses disks.new))) (D.told disks.old) (D.told disks.new)) }
    ensures damage_shown { D.shows_damage disks.old → D.shows_damage disks.new }
    ensures soundness_kept { D.sound disks.old → D.sound disks.new }
{
    let got = disks.read(alloc, file.node, &file.name, &file.digest)?;
    Ok(found_in(got))
}

fn found_in(got: Got) -> Fetched
    ensures { result ≡ fetched_of got }
{
    match got {
        Got::Same(bytes) => Fetched::Bytes(bytes),
        Got::Gone | Got::Other => Fetched::Missed,
    }
}
