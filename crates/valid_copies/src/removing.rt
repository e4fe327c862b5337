ghost use Rattle.std.specs.Prelude.{◌≡◌, ◌≤◌, ◌-◌, not, map, IfErr, IfOk, IsSome, OnErr, OnOk};
ghost use Rattle.hal_base.specs.Shapes.{source_at};
ghost use Rattle.name_values.specs.Values.{World};
ghost use Rattle.replica_table.specs.Copies.{but_those};
ghost use Rattle.replica_table.specs.Sets.{members};
ghost use Rattle.run_model.specs.Removals.{ordered};
ghost use Rattle.run_model.specs.Stays.{kept_round};
ghost use Rattle.run_model.specs.Tasks.{is_cached};
ghost use Rattle.hal_outside.specs.Told.{OnTold, Rose};
ghost use Rattle.valid_copies.specs.Calls.{Added, Begun, CallsHave, Follows};
ghost use Rattle.valid_copies.specs.Faults.{AtDevice, AtMissed};
ghost use Rattle.valid_copies.specs.LastWrites.{AsksByDigests, KeepsDigests, WritesNothing};
ghost use Rattle.valid_copies.specs.RightCalls.{RightWork};
ghost use Rattle.valid_copies.specs.Removing.{OfClearing, OthersKept, RemovedSome, as_copies, goes, left_over, removal_of};
ghost use Rattle.valid_copies.specs.Stands.{OthersStay, Stands};
ghost use Rattle.valid_copies.specs.steps.Leaving.{stays_by};

use crate::fault::WorkFault;
use hal_base::{Memory, Shape};
use hal_outside::{DiskFault, Disks};
use node_names::Name;
use replica_table::{FileOn, NameTest, NodeSet, Table, sort_files};
use run_model::source_of;
use std::alloc::Global;

/// Removes files from their nodes, in order. After a fault some of them are gone, and of the next nothing is known.
/// docs/CLUSTER.md, "What stays".
pub fn remove_files<D: Disks>(
    alloc: Global,
    disks: &mut D,
    files: &[FileOn],
) -> Result<(), WorkFault>
    ensures removed { OnOk result (Added (D.told disks.old) (map removal_of files.now) (D.told disks.new)) }
    ensures begun { OnErr result (RemovedSome (D.told disks.old) files.now (D.told disks.new)) }
    ensures others { OnTold (OthersKept files.now) (D.told disks.old) (D.told disks.new) }
    ensures faults_stay { D.faults disks.old ≤ D.faults disks.new }
    ensures misses_stay { D.misses disks.old ≤ D.misses disks.new }
    ensures device { IfErr result (λ fault. AtDevice fault (Rose (D.faults disks.old) (D.faults disks.new))) }
    ensures not_missed { IsSome (D.told disks.old) → D.misses disks.new ≡ D.misses disks.old }
    ensures missed { IfErr result (λ fault. AtMissed fault ⊥) }
    ensures damage_shown { D.shows_damage disks.old → D.shows_damage disks.new }
    ensures soundness_kept { D.sound disks.old → D.sound disks.new }
{
    let mut rest = files;
    'files: while let Some((file, others)) = rest.split_first() {
        match disks.remove(alloc, file.node, &file.name) {
            Ok(()) => rest = others,
            Err(DiskFault::Device(device)) => return Err(WorkFault::Device(device)),
            Err(DiskFault::Memory) => return Err(WorkFault::Memory),
        }
    }
    Ok(())
}

/// Removes the files on some nodes that do not stay in a round, by name and then by node, and strikes their copies: they
/// are listed in this order. The other copies stay valid. After a fault the table is as before.
/// docs/CLUSTER.md, "What stays".
fn clear_files<D: Disks>(
    alloc: Global,
    disks: &mut D,
    table: &mut Table,
    shape: &Shape,
    keep: u32,
    round: u32,
    nodes: NodeSet,
    files: &[FileOn],
) -> Result<(), WorkFault>
    requires begun { 1 ≤ round }
    requires some { 1 ≤ keep }
    requires listed { as_copies files.now ≡ ordered (left_over shape.now keep round (members nodes.0) table.old.copies) }
    ensures cleared { OnOk result (table.new ≡ record table.old { copies = but_those (goes shape.now keep round) (members nodes.0) table.old.copies }) }
    ensures followed { OnOk result (OfClearing (λ plan rest. Follows plan (D.told disks.old) (D.told disks.new) rest) shape.now keep round (members nodes.0) table.old.copies table.new.copies) }
    ensures stopped { OnErr result (OfClearing (λ plan rest. Begun plan (D.told disks.old) (D.told disks.new)) shape.now keep round (members nodes.0) table.old.copies table.new.copies) }
    ensures table_kept { OnErr result (table.new ≡ table.old) }
    ensures valid { OnOk result ((w : World) → Stands w table.old.copies (D.told disks.old) → Stands w table.new.copies (D.told disks.new)) }
    ensures others { OnTold (OthersStay (members nodes.0)) (D.told disks.old) (D.told disks.new) }
    ensures faults_stay { D.faults disks.old ≤ D.faults disks.new }
    ensures misses_stay { D.misses disks.old ≤ D.misses disks.new }
    ensures device { IfErr result (λ fault. AtDevice fault (Rose (D.faults disks.old) (D.faults disks.new))) }
    ensures not_missed { IsSome (D.told disks.old) → D.misses disks.new ≡ D.misses disks.old }
    ensures missed { IfErr result (λ fault. AtMissed fault ⊥) }
    ensures agree { OnOk result (KeepsDigests table.old.copies table.new.copies (D.told disks.old) (D.told disks.new)) }
    ensures asks { AsksByDigests table.old.copies (D.told disks.old) (D.told disks.new) }
    ensures wrote_nothing { CallsHave WritesNothing (D.told disks.old) (D.told disks.new) }
    ensures calls { (w : World) → RightWork D.Disks w disks.old disks.new (IfErr result (λ fault. AtMissed fault ⊥)) }
    ensures damage_shown { D.shows_damage disks.old → D.shows_damage disks.new }
    ensures soundness_kept { D.sound disks.old → D.sound disks.new }
{
    let leaving = names_that_go(shape, keep, round);
    match remove_files(alloc, disks, files) {
        Ok(()) => {
            table.strike_those(nodes, &leaving);
            Ok(())
        }
        Err(fault) => Err(fault),
    }
}

/// Removes the files on some nodes that do not stay in a round, by name and then by node, and strikes their copies. The
/// other copies stay valid. After a fault the table is as before. docs/CLUSTER.md, "What stays".
pub fn clear_nodes<D: Disks>(
    alloc: Global,
    disks: &mut D,
    table: &mut Table,
    shape: &Shape,
    keep: u32,
    round: u32,
    nodes: NodeSet,
) -> Result<(), WorkFault>
    requires begun { 1 ≤ round }
    requires some { 1 ≤ keep }
    ensures cleared { OnOk result (table.new ≡ record table.old { copies = but_those (goes shape.now keep round) (members nodes.0) table.old.copies }) }
    ensures followed { OnOk result (OfClearing (λ plan rest. Follows plan (D.told disks.old) (D.told disks.new) rest) shape.now keep round (members nodes.0) table.old.copies table.new.copies) }
    ensures stopped { OnErr result (OfClearing (λ plan rest. Begun plan (D.told disks.old) (D.told disks.new)) shape.now keep round (members nodes.0) table.old.copies table.new.copies) }
    ensures table_kept { OnErr result (table.new ≡ table.old) }
    ensures valid { OnOk result ((w : World) → Stands w table.old.copies (D.told disks.old) → Stands w table.new.copies (D.told disks.new)) }
    ensures others { OnTold (OthersStay (members nodes.0)) (D.told disks.old) (D.told disks.new) }
    ensures faults_stay { D.faults disks.old ≤ D.faults disks.new }
    ensures misses_stay { D.misses disks.old ≤ D.misses disks.new }
    ensures device { IfErr result (λ fault. AtDevice fault (Rose (D.faults disks.old) (D.faults disks.new))) }
    ensures not_missed { IsSome (D.told disks.old) → D.misses disks.new ≡ D.misses disks.old }
    ensures missed { IfErr result (λ fault. AtMissed fault ⊥) }
    ensures agree { OnOk result (KeepsDigests table.old.copies table.new.copies (D.told disks.old) (D.told disks.new)) }
    ensures asks { AsksByDigests table.old.copies (D.told disks.old) (D.told disks.new) }
    ensures wrote_nothing { CallsHave WritesNothing (D.told disks.old) (D.told disks.new) }
    ensures calls { (w : World) → RightWork D.Disks w disks.old disks.new (IfErr result (λ fault. AtMissed fault ⊥)) }
    ensures damage_shown { D.shows_damage disks.old → D.shows_damage disks.new }
    ensures soundness_kept { D.sound disks.old → D.sound disks.new }
{
    match files_that_go(alloc, table, shape, keep, round, nodes) {
        Ok(files) => clear_files(alloc, disks, table, shape, keep, round, nodes, &files),
        Err(Memory) => Err(WorkFault::Memory),
    }
}

/// The files on some nodes that do not stay in a round, by name and then by node.
fn files_that_go(
    alloc: Global,
    table: &Table,
    shape: &Shape,
    keep: u32,
    round: u32,
    nodes: NodeSet,
) -> Result<Vec<FileOn>, Memory>
    requires begun { 1 ≤ round }
    requires some { 1 ≤ keep }
    ensures { IfOk result (λ files. as_copies files.items ≡ ordered (left_over shape.now keep round (members nodes.0) table.now.copies)) }
{
    let leaving = names_that_go(shape, keep, round);
    match table.list_those(alloc, nodes, &leaving) {
        Ok(files) => Ok(sort_files(files)),
        Err(Memory) => Err(Memory),
    }
}

/// The test of the names that do not stay in a round.
fn names_that_go<'a>(shape: &'a Shape, keep: u32, round: u32) -> Leaving<'a>
    requires begun { 1 ≤ round }
    requires some { 1 ≤ keep }
    ensures shape { result.shape.now ≡ shape.now }
    ensures round { result.round ≡ round }
    ensures before { result.before ≡ round - 1 }
    ensures kept { result.kept ≡ kept_round keep round }
{
    Leaving {
        shape,
        round,
        before: round - 1,
        kept: kept_round(keep, round),
    }
}

/// The greatest multiple of `keep` below the round.
fn kept_round(keep: u32, round: u32) -> u32
    requires begun { 1 ≤ round }
    requires some { 1 ≤ keep }
    ensures { result ≡ kept_round keep round }
{
    keep * ((round - 1) / keep)
}

/// The names that do not stay in a round: the round before it, and the kept round.
#[derive(Drop)]
struct Leaving<'a> {
    shape: &'a Shape,
    round: u32,
    before: u32,
    kept: u32,
}

impl<'a> NameTest for Leaving<'a> {
    ghost use Rattle.std.specs.Prelude.{not};
    ghost use Rattle.valid_copies.specs.steps.Leaving.{stays_by};

    ghost test = { λ it name. not (stays_by it.shape.now it.round it.before it.kept name) };

    fn passes(&self, name: &Name) -> bool {
        !stays_by(self.shape, self.round, self.before, self.kept, name)
    }
}

/// Whether a file of this name stays in the round, by the round before it and the kept round.
fn stays_by(shape: &Shape, round: u32, before: u32, kept: u32, name: &Name) -> bool
    ensures { result ≡ stays_by shape.now round before kept name.now }
{
    match *name {
        Name::Blk { .. } | Name::Ric { .. } | Name::Mic { .. } => true,
        Name::Spill {
            round: made,
            step,
            source,
            ..
        } => made == round || (made == 1 && has_cache(shape, step, source)),
        Name::Out {
            round: made,
            step,
            ..
        } => made == round || (step as usize == shape.steps.len() && kept <= made),
        Name::Roc { round: made, .. } => made == round || made == before,
    }
}

/// Whether the source has the reducer input cache.
fn has_cache(shape: &Shape, step: u32, source: u32) -> bool
    ensures { result ≡ is_cached (source_at shape.now step source) }
{
    match source_of(shape, step, source) {
        Some(source) => source.reducer_input,
        None => false,
    }
}
