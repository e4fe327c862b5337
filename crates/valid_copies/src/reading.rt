ghost use Rattle.std.specs.Prelude.{◌≡◌, ◌<◌, ◌≤◌, [], ◌∷◌, ◌++◌, List, IfErr, IfOk, OnOk};
ghost use Rattle.std.specs.List.{AllByRecursion};
ghost use Rattle.hal_outside.specs.Told.{Rose};
ghost use Rattle.replica_table.specs.Copies.{Copy};
ghost use Rattle.name_values.specs.Values.{World};
ghost use Rattle.valid_copies.specs.Stands.{Stands};
ghost use Rattle.valid_copies.specs.Calls.{PutStays};
ghost use Rattle.valid_copies.specs.Faults.{AtDevice, AtMissed};
ghost use Rattle.valid_copies.specs.Files.{FoundAt, ReadOrStarved, StoppedBy};
ghost use Rattle.valid_copies.specs.LastWrites.{ReadsCopies};
ghost use Rattle.valid_copies.specs.Readings.{IsFile};
ghost use Rattle.valid_copies.specs.RightCalls.{RightWork};

use crate::desk::Desk;
use crate::fault::WorkFault;
use crate::keeping::fetch_copy;
use crate::rows::rows_of;
use crate::tries::first_try;
use hal_base::{Memory, Parts, Records};
use hal_outside::Disks;
use node_files::{Fault, Fetched, FileRef};
use node_names::Name;
use std::alloc::Global;

/// A file that was read, and the records for which its bytes stand.
#[derive(Drop)]
pub struct Found {
    pub file: FileRef,
    pub rows: Records,
}

/// Reads a need, by the file that is tried first for it. `None` where no file is left to try.
pub fn read_need<D: Disks>(
    alloc: Global,
    disks: &mut D,
    desk: &Desk,
    name: &Name,
) -> Result<Option<Found>, WorkFault>
    requires own { desk.now.own < desk.now.table.nodes }
    requires file { IsFile name.now }
    ensures found { IfOk result (FoundAt desk.now (D.shows_damage disks.old) (D.told disks.old) name.now (D.told disks.new)) }
    ensures stopped { IfErr result (StoppedBy desk.now (D.told disks.old) (name.now ∷ []) (D.told disks.new)) }
    ensures faults_stay { D.faults disks.old ≤ D.faults disks.new }
    ensures misses_stay { D.misses disks.old ≤ D.misses disks.new }
    ensures device { IfErr result (λ fault. AtDevice fault (Rose (D.faults disks.old) (D.faults disks.new))) }
    ensures missed { IfErr result (λ fault. AtMissed fault (Rose (D.misses disks.old) (D.misses disks.new))) }
    ensures valid { (w : World) (copies : List Copy) → Stands w copies (D.told disks.old) → Stands w copies (D.told disks.new) }
    ensures asked { ReadsCopies desk.now.table.copies (D.told disks.old) (D.told disks.new) }
    ensures calls { (w : World) → Stands w desk.now.table.copies (D.told disks.old) → RightWork D.Disks w disks.old disks.new (IfErr result (λ fault. AtMissed fault ⊥)) }
    ensures puts_stay { PutStays (D.told disks.old) (D.told disks.new) }
    ensures damage_shown { D.shows_damage disks.old → D.shows_damage disks.new }
    ensures soundness_kept { D.sound disks.old → D.sound disks.new }
{
    let Some(file) = first_try(desk, name) else {
        return Ok(None);
    };
    match fetch_copy(alloc, disks, &file) {
        Ok(Fetched::Bytes(bytes)) => {
            match rows_of(alloc, desk.shape, &file.name, bytes.as_slice(), desk.part) {
                Ok(rows) => Ok(Some(Found { file, rows })),
                Err(Memory) => Err(WorkFault::Memory),
            }
        }
        Ok(Fetched::Missed) => Err(WorkFault::Missed),
        Err(Fault::Device(device)) => Err(WorkFault::Device(device)),
        Err(Fault::Memory) => Err(WorkFault::Memory),
    }
}

/// Reads needs in order, each by the file that is tried first for it, and adds these files to others: the records of
/// each. `None` where no file is left to try for one of them.
pub fn read_all<D: Disks>(
    alloc: Global,
    disks: &mut D,
    desk: &Desk,
    names: &[Name],
    files: &mut Vec<FileRef>,
) -> Result<Option<Parts>, WorkFault>
    requires own { desk.now.own < desk.now.table.nodes }
    requires all_files { AllByRecursion IsFile names.now }
    ensures read { IfOk result (ReadOrStarved desk.now (D.shows_damage disks.old) (D.told disks.old) names.now files.old.items files.new.items (D.told disks.new)) }
    ensures stopped { IfErr result (StoppedBy desk.now (D.told disks.old) names.now (D.told disks.new)) }
    ensures faults_stay { D.faults disks.old ≤ D.faults disks.new }
    ensures misses_stay { D.misses disks.old ≤ D.misses disks.new }
    ensures device { IfErr result (λ fault. AtDevice fault (Rose (D.faults disks.old) (D.faults disks.new))) }
    ensures missed { IfErr result (λ fault. AtMissed fault (Rose (D.misses disks.old) (D.misses disks.new))) }
    ensures valid { (w : World) (copies : List Copy) → Stands w copies (D.told disks.old) → Stands w copies (D.told disks.new) }
    ensures asked { ReadsCopies desk.now.table.copies (D.told disks.old) (D.told disks.new) }
    ensures calls { (w : World) → Stands w desk.now.table.copies (D.told disks.old) → RightWork D.Disks w disks.old disks.new (IfErr result (λ fault. AtMissed fault ⊥)) }
    ensures puts_stay { PutStays (D.told disks.old) (D.told disks.new) }
    ensures damage_shown { D.shows_damage disks.old → D.shows_damage disks.new }
    ensures soundness_kept { D.sound disks.old → D.sound disks.new }
{
    let mut lists = Parts::new(alloc);
    let mut rest = names;
    'names: while let Some((name, others)) = rest.split_first() {
        match read_need(alloc, disks, desk, name) {
            Ok(Some(found)) => match keep(found, files, &mut lists) {
                Ok(()) => rest = others,
                Err(Memory) => return Err(WorkFault::Memory),
            },
            Ok(None) => return Ok(None),
            Err(fault) => return Err(fault),
        }
    }
    Ok(Some(lists))
}

/// Adds what was read to files and lists.
fn keep(found: Found, files: &mut Vec<FileRef>, lists: &mut Parts) -> Result<(), Memory>
    ensures files { OnOk result (files.new.items ≡ files.old.items ++ found.file ∷ []) }
    ensures lists { OnOk result (lists.new ≡ lists.old ++ found.rows ∷ []) }
{
    files.push(found.file)?;
    lists.push(found.rows)
}
