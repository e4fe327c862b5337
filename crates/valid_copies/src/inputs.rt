ghost use Rattle.std.specs.Prelude.{◌≡◌, ◌<◌, ◌≤◌, ◌+◌, ◌-◌, ◌^◌, [], ◌∷◌, ◌++◌, List, IfErr, IfOk, OnOk};
ghost use Rattle.std.specs.List.{AllByRecursion};
ghost use Rattle.hal_outside.specs.Told.{Rose};
ghost use Rattle.replica_table.specs.Copies.{Copy};
ghost use Rattle.name_values.specs.Values.{World};
ghost use Rattle.valid_copies.specs.Calls.{PutStays};
ghost use Rattle.valid_copies.specs.Faults.{AtDevice, AtMissed};
ghost use Rattle.valid_copies.specs.Files.{try_of};
ghost use Rattle.valid_copies.specs.Inputs.{InputsOrStarved, InputsStopped, counted_files, names_in};
ghost use Rattle.run_model.specs.Reading.{counted, is_cache, nothing_read};
ghost use Rattle.run_model.specs.State.{PlainCluster};
ghost use Rattle.valid_copies.specs.ReadCounts.{read_so_far};
ghost use Rattle.valid_copies.specs.LastWrites.{ReadsCopies};
ghost use Rattle.valid_copies.specs.Readings.{IsFile};
ghost use Rattle.valid_copies.specs.RightCalls.{RightWork};
ghost use Rattle.valid_copies.specs.Stands.{Stands};

use crate::desk::Desk;
use crate::fault::WorkFault;
use crate::reading::read_all;
use hal_base::{Memory, Parts};
use hal_outside::Disks;
use node_files::FileRef;
use node_names::Name;
use std::alloc::Global;

/// Reads the files of inputs in order, each by the file that is tried first for it, and adds these files to others: for
/// each input the records of its files. `None` where no file is left to try for one of them. docs/CLUSTER.md, "Reading".
pub fn read_inputs<D: Disks>(
    alloc: Global,
    disks: &mut D,
    desk: &Desk,
    inputs: &[Vec<Name>],
    files: &mut Vec<FileRef>,
) -> Result<Option<Vec<Parts>>, WorkFault>
    requires own { desk.now.own < desk.now.table.nodes }
    requires all_files { AllByRecursion (AllByRecursion IsFile) (names_in inputs.now) }
    ensures read { IfOk result (InputsOrStarved desk.now (D.shows_damage disks.old) (D.told disks.old) (names_in inputs.now) files.old.items files.new.items (D.told disks.new)) }
    ensures stopped { IfErr result (InputsStopped desk.now (D.told disks.old) (names_in inputs.now) (D.told disks.new)) }
    ensures faults_stay { D.faults disks.old ≤ D.faults disks.new }
    ensures misses_stay { D.misses disks.old ≤ D.misses disks.new }
    ensures device { IfErr result (λ fault. AtDevice fault (Rose (D.faults disks.old) (D.faults disks.new))) }
    ensures missed { IfErr result (λ fault. AtMissed fault (Rose (D.misses disks.old) (D.misses disks.new))) }
    ensures valid { (w : World) (copies : List Copy) → Stands w copies (D.told disks.old) → Stands w copies (D.told disks.new) }
    ensures asked { ReadsCopies desk.now.table.copies (D.told disks.old) (D.told disks.new) }
    ensures calls { (w : World) → Stands w desk.now.table.copies (D.told disks.old) → RightWork D.Disks w disks.old disks.new (IfErr result (λ fault. AtMissed fault ⊥)) }
    ensures puts_stay { PutStays (D.told disks.old) (D.told disks.new) }
    ensures damage_shown { D.shows_damage disks.old → D.shows_damage disks.new }
    ensures soundness_kept { D.sound disks.old → D.sound disks.new }
{
    let mut lists = Vec::new(alloc);
    let mut rest = inputs;
    'inputs: while let Some((names, others)) = rest.split_first() {
        match read_all(alloc, disks, desk, names.as_slice(), files) {
            Ok(Some(parts)) => match keep_parts(&mut lists, parts) {
                Ok(()) => rest = others,
                Err(Memory) => return Err(WorkFault::Memory),
            },
            Ok(None) => return Ok(None),
            Err(fault) => return Err(fault),
        }
    }
    Ok(Some(lists))
}

/// Adds what was read of an input to the lists.
fn keep_parts(lists: &mut Vec<Parts>, parts: Parts) -> Result<(), Memory>
    ensures { OnOk result (lists.new.items ≡ lists.old.items ++ parts ∷ []) }
{
    lists.push(parts)?;
    Ok(())
}

/// How many files an attempt read: from its own node, from others, and of the first how many are caches.
#[derive(Clone, Copy)]
pub struct ReadCounts {
    pub local: u64,
    pub remote: u64,
    pub caches: u64,
}

/// Counts the files that an attempt on a node read. docs/CLUSTER.md, "Reading".
pub fn count_reads(own: u32, files: &[FileRef]) -> ReadCounts
    ensures { (c : PlainCluster) → counted_files own files.now (nothing_read c) ≡ read_so_far result c }
{
    let mut counts = ReadCounts {
        local: 0,
        remote: 0,
        caches: 0,
    };
    'files: for file in files {
        counts = count_read(counts, own, file);
    }
    counts
}

/// The counts with one more file.
fn count_read(counts: ReadCounts, own: u32, file: &FileRef) -> ReadCounts
    requires local { counts.local < 2 ^ 64 - 1 }
    requires remote { counts.remote < 2 ^ 64 - 1 }
    requires caches { counts.caches < 2 ^ 64 - 1 }
    ensures counted { (c : PlainCluster) → read_so_far result c ≡ counted own (try_of file.now) c (read_so_far counts c) }
    ensures local { result.local ≤ counts.local + 1 }
    ensures remote { result.remote ≤ counts.remote + 1 }
    ensures caches { result.caches ≤ counts.caches + 1 }
{
    let mut counts = counts;
    if file.node == own {
        counts.local += 1;
        if is_cache(&file.name) {
            counts.caches += 1;
        }
    } else {
        counts.remote += 1;
    }
    counts
}

/// Whether the file of this name is a cache.
fn is_cache(name: &Name) -> bool
    ensures { result ≡ is_cache name.now }
{
    match *name {
        Name::Ric { .. } | Name::Mic { .. } | Name::Roc { .. } => true,
        Name::Blk { .. } | Name::Spill { .. } | Name::Out { .. } => false,
    }
}
