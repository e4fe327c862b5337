ghost use Rattle.std.specs.Prelude.{◌≡◌, ℕ, ◌<◌, ◌≤◌, Option, IfOk, IfErr, IfSome, IsSome, OnOk, OnErr};
ghost use Rattle.hal_outside.specs.Told.{OnTold, Rose};
ghost use Rattle.hal_outside.specs.Faults.{AtDiskDevice};
ghost use Rattle.hal_outside.specs.DiskFiles.{file_at};
ghost use Rattle.hal_outside.specs.DiskCalls as call;
ghost use Rattle.hal_outside.specs.DiskCalls.{answer_of};
ghost use Rattle.hal_outside.specs.DiskTold.{DiskTold, Done, IsAnswer, IsWanted, Lacks, NotDone, NotRead, OnMiss};
ghost use Rattle.hal_outside.specs.Damage.{IsSound, ShowsDamage};

use crate::faults::DiskFault;
use crate::got::Got;
use node_names::{Digest, Name};
use std::alloc::Global;

/// The disks of the nodes of a cluster, with files under names. Where they are told, no call changes what was put under
/// a name that it does not have; what lies there may change by itself. docs/CLUSTER.md, "Disks".
pub trait Disks {
    /// How many calls a device failed.
    ghost faults: { Self → ℕ };

    /// How many reads found no file, or one with another digest.
    ghost misses: { Self → ℕ };

    /// What was put, what lies there now, and the calls, where the implementation tells them.
    ghost told: { Self → Option DiskTold };

    /// Whether a file that is not as it was put has another digest, or is gone.
    ghost shows_damage: { Self → Type 0 };

    /// Whether each file is as it was put.
    ghost sound: { Self → Type 0 };

    /// Sets a file of a node to these bytes. After a failure nothing is known of this file.
    fn write(
        &mut self,
        alloc: Global,
        node: u32,
        name: &Name,
        bytes: &[u8],
    ) -> Result<(), DiskFault>
        ensures faults_stay { faults self.old ≤ faults self.new }
        ensures misses_stay { misses self.old ≤ misses self.new }
        ensures device { IfErr result (λ fault. AtDiskDevice fault (Rose (faults self.old) (faults self.new))) }
        ensures not_missed { IsSome (told self.old) → misses self.new ≡ misses self.old }
        ensures done { OnOk result (OnTold (Done (call.Write node name.now bytes.now)) (told self.old) (told self.new)) }
        ensures failed { OnErr result (OnTold (NotDone (call.Write node name.now bytes.now)) (told self.old) (told self.new)) }
        ensures damage_shown { shows_damage self.old → shows_damage self.new }
        ensures soundness_kept { sound self.old → sound self.new };

    /// The bytes of a file of a node, if it has the wanted digest.
    fn read(
        &mut self,
        alloc: Global,
        node: u32,
        name: &Name,
        want: &Digest,
    ) -> Result<Got, DiskFault>
        ensures faults_stay { faults self.old ≤ faults self.new }
        ensures misses_stay { misses self.old ≤ misses self.new }
        ensures device { IfErr result (λ fault. AtDiskDevice fault (Rose (faults self.old) (faults self.new))) }
        ensures wanted { IfOk result (λ got. IsWanted want.now.0 (answer_of got)) }
        ensures missed { IfOk result (λ got. OnMiss (answer_of got) (Rose (misses self.old) (misses self.new))) }
        ensures only_missed { IfSome (told self.new) (λ new. misses self.old < misses self.new → Lacks (file_at new.now node name.now) want.now.0) }
        ensures answer { IfOk result (λ got. IfSome (told self.new) (λ new. IsAnswer (file_at new.now node name.now) want.now.0 (answer_of got))) }
        ensures done { IfOk result (λ got. OnTold (Done (call.Read node name.now want.now.0 (answer_of got))) (told self.old) (told self.new)) }
        ensures failed { OnErr result (OnTold (NotRead node name.now want.now.0 (Rose (misses self.old) (misses self.new))) (told self.old) (told self.new)) }
        ensures damage_shown { shows_damage self.old → shows_damage self.new }
        ensures soundness_kept { sound self.old → sound self.new };

    /// Takes a file of a node away, if it is there. After a failure nothing is known of this file.
    fn remove(&mut self, alloc: Global, node: u32, name: &Name) -> Result<(), DiskFault>
        ensures faults_stay { faults self.old ≤ faults self.new }
        ensures misses_stay { misses self.old ≤ misses self.new }
        ensures device { IfErr result (λ fault. AtDiskDevice fault (Rose (faults self.old) (faults self.new))) }
        ensures not_missed { IsSome (told self.old) → misses self.new ≡ misses self.old }
        ensures done { OnOk result (OnTold (Done (call.Remove node name.now)) (told self.old) (told self.new)) }
        ensures failed { OnErr result (OnTold (NotDone (call.Remove node name.now)) (told self.old) (told self.new)) }
        ensures damage_shown { shows_damage self.old → shows_damage self.new }
        ensures soundness_kept { sound self.old → sound self.new };

    /// Takes all files of a node away. After a failure nothing is known of its files.
    fn wipe(&mut self, alloc: Global, node: u32) -> Result<(), DiskFault>
        ensures faults_stay { faults self.old ≤ faults self.new }
        ensures misses_stay { misses self.old ≤ misses self.new }
        ensures device { IfErr result (λ fault. AtDiskDevice fault (Rose (faults self.old) (faults self.new))) }
        ensures not_missed { IsSome (told self.old) → misses self.new ≡ misses self.old }
        ensures done { OnOk result (OnTold (Done (call.Wipe node)) (told self.old) (told self.new)) }
        ensures failed { OnErr result (OnTold (NotDone (call.Wipe node)) (told self.old) (told self.new)) }
        ensures damage_shown { shows_damage self.old → shows_damage self.new }
        ensures soundness_kept { sound self.old → sound self.new };

    ghost damage_shows: { (disks : Self) → shows_damage disks → IfSome (told disks) ShowsDamage };

    ghost sound_is: { (disks : Self) → sound disks → IfSome (told disks) IsSound };

    ghost sound_shows: { (disks : Self) → sound disks → shows_damage disks };
}
