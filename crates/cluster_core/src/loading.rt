ghost use Rattle.std.specs.Prelude.{◌≡◌, ◌<◌, ◌*◌, ◌≤◌, [], IfErr, IfOk, IsSome, OnErr, OnOk, Some, drop, length, map, slice_get, take};
ghost use Rattle.std.specs.List.{AllByRecursion};
ghost use Rattle.cluster_core.specs.Disks.{Leaves};
ghost use Rattle.cluster_core.specs.Filling.{AddedSome, CanLoad, Filled, FilledSome, HasItsText, copies_of, empty_table, load_calls, load_files, table_files};
ghost use Rattle.cluster_core.specs.Loading.{IsLoaded, IsOver, setup_of};
ghost use Rattle.hal_outside.specs.DiskCalls as call;
ghost use Rattle.hal_outside.specs.Told.{OnTold, Rose};
ghost use Rattle.loop_scheduler.specs.Views.{IsCounted};
ghost use Rattle.name_values.specs.Values.{World};
ghost use Rattle.plain_job.specs.Fit.{AreRecordsOf, TablesFit};
ghost use Rattle.record_blocks.specs.Blocks.{block_text};
ghost use Rattle.run_model.specs.Lists.{below};
ghost use Rattle.run_model.specs.Plans.{gives};
ghost use Rattle.run_model.specs.Runs.{load, loaded};
ghost use Rattle.schedule_text.specs.Schedules.{KeepsLimits};
ghost use Rattle.valid_copies.specs.Calls.{Added, Begun, Follows};
ghost use Rattle.valid_copies.specs.Faults.{AtDevice, AtMissed};
ghost use Rattle.valid_copies.specs.RightCalls.{RightCalls};
ghost use Rattle.valid_copies.specs.Stands.{Stands};
ghost use Rattle.valid_copies.specs.Writes.{table_with};
ghost use Rattle.valid_copies.specs.LastWrites.{DigestsAgree};

use hal_base::{CopyIn, Memory, Record, Records, Schema, Shape, Tables};
use hal_outside::{DiskFault, Disks};
use node_names::Name;
use record_blocks::encode;
use replica_table::{Table, place};
use schedule_text::Schedule;
use std::alloc::Global;
use valid_copies::{WorkFault, write_copy};

/// What a load is given.
#[derive(Drop)]
struct Given<'a> {
    shape: &'a Shape,
    schedule: &'a Schedule,
    tables: &'a Tables,
}

/// Wipes all nodes, from 0 to below `schedule.nodes`, and writes each block of each table to its nodes, by table, block
/// and copy: the table of copies after that. A block has `schedule.block` records, but for the last of a table; how many
/// blocks a table has, `shape.blocks` says. Errors: a device's fault, or want of memory. docs/CLUSTER.md, "Copies".
pub fn fill<D: Disks>(
    alloc: Global,
    disks: &mut D,
    shape: &Shape,
    schedule: &Schedule,
    tables: &Tables,
) -> Result<Table, WorkFault>
    requires counted { IsCounted shape.now }
    requires limits { KeepsLimits schedule.now }
    requires fit { TablesFit shape.now tables.now }
    ensures followed { OnOk result (Follows (load (setup_of shape.now schedule.now)) (D.told disks.old) (D.told disks.new) (gives (loaded (setup_of shape.now schedule.now)))) }
    ensures begun { OnErr result (Begun (load (setup_of shape.now schedule.now)) (D.told disks.old) (D.told disks.new)) }
    ensures table { IfOk result (IsLoaded (setup_of shape.now schedule.now)) }
    ensures stands { IfOk result (λ table. (w : World) → IsOver shape.now tables.now schedule.now.block w → Stands w table.copies (D.told disks.new)) }
    ensures texts { (w : World) → IsOver shape.now tables.now schedule.now.block w → OnTold (RightCalls w) (D.told disks.old) (D.told disks.new) }
    ensures agree { IfOk result (λ table. DigestsAgree table.copies (D.told disks.new)) }
    ensures disks { Leaves D.Disks schedule.now.nodes disks.old disks.new }
    ensures device { IfErr result (λ fault. AtDevice fault (Rose (D.faults disks.old) (D.faults disks.new))) }
    ensures missed { IfErr result (λ fault. AtMissed fault ⊥) }
    ensures not_missed { IsSome (D.told disks.old) → D.misses disks.new ≡ D.misses disks.old }
{
    fill_all(
        alloc,
        disks,
        &Given {
            shape,
            schedule,
            tables,
        },
    )
}

/// All that `fill` does, by the files that are written.
fn fill_all<D: Disks>(alloc: Global, disks: &mut D, given: &Given) -> Result<Table, WorkFault>
    requires { CanLoad given.now.shape.now given.now.schedule.now given.now.tables.now }
    ensures added { OnOk result (Added (D.told disks.old) (load_calls (setup_of given.now.shape.now given.now.schedule.now) given.now.tables.now) (D.told disks.new)) }
    ensures begun { OnErr result (AddedSome (load_calls (setup_of given.now.shape.now given.now.schedule.now) given.now.tables.now) (D.told disks.old) (D.told disks.new)) }
    ensures table { IfOk result (λ table. table ≡ table_with (load_files (setup_of given.now.shape.now given.now.schedule.now) given.now.tables.now) (empty_table given.now.schedule.now.nodes)) }
    ensures valid { IfOk result (λ table. (w : World) → AllByRecursion (HasItsText w) (load_files (setup_of given.now.shape.now given.now.schedule.now) given.now.tables.now) → Stands w table.copies (D.told disks.new)) }
    ensures agree { IfOk result (λ table. DigestsAgree table.copies (D.told disks.new)) }
    ensures disks { Leaves D.Disks given.now.schedule.now.nodes disks.old disks.new }
    ensures device { IfErr result (λ fault. AtDevice fault (Rose (D.faults disks.old) (D.faults disks.new))) }
    ensures missed { IfErr result (λ fault. AtMissed fault ⊥) }
    ensures not_missed { IsSome (D.told disks.old) → D.misses disks.new ≡ D.misses disks.old }
{
    let mut table = Table::new(alloc, given.schedule.nodes)?;
    wipe_all(alloc, disks, given.schedule.nodes)?;
    write_tables(alloc, disks, &mut table, given)?;
    Ok(table)
}

/// Takes all files of all nodes away.
fn wipe_all<D: Disks>(alloc: Global, disks: &mut D, nodes: u32) -> Result<(), WorkFault>
    ensures wiped { OnOk result (Added (D.told disks.old) (map call.Wipe (below nodes)) (D.told disks.new)) }
    ensures begun { OnErr result (AddedSome (map call.Wipe (below nodes)) (D.told disks.old) (D.told disks.new)) }
    ensures disks { Leaves D.Disks nodes disks.old disks.new }
    ensures device { IfErr result (λ fault. AtDevice fault (Rose (D.faults disks.old) (D.faults disks.new))) }
    ensures missed { IfErr result (λ fault. AtMissed fault ⊥) }
    ensures not_missed { IsSome (D.told disks.old) → D.misses disks.new ≡ D.misses disks.old }
{
    'nodes: for node in 0..nodes {
        match disks.wipe(alloc, node) {
            Ok(()) => {}
            Err(DiskFault::Device(device)) => return Err(WorkFault::Device(device)),
            Err(DiskFault::Memory) => return Err(WorkFault::Memory),
        }
    }
    Ok(())
}

/// Writes the blocks of all tables.
fn write_tables<D: Disks>(
    alloc: Global,
    disks: &mut D,
    table: &mut Table,
    given: &Given,
) -> Result<(), WorkFault>
    requires can { CanLoad given.now.shape.now given.now.schedule.now given.now.tables.now }
    requires nodes { table.old.nodes ≡ given.now.schedule.now.nodes }
    ensures filled { OnOk result (Filled D.Disks (load_files (setup_of given.now.shape.now given.now.schedule.now) given.now.tables.now) disks.old table.old table.new disks.new) }
    ensures stopped { OnErr result (FilledSome D.Disks (load_files (setup_of given.now.shape.now given.now.schedule.now) given.now.tables.now) disks.old table.old table.new disks.new) }
    ensures device { IfErr result (λ fault. AtDevice fault (Rose (D.faults disks.old) (D.faults disks.new))) }
    ensures missed { IfErr result (λ fault. AtMissed fault ⊥) }
{
    'tables: for number in 0..given.shape.blocks.len() as u32 {
        write_table(alloc, disks, table, given, number)?;
    }
    Ok(())
}

/// Writes the blocks of a table.
fn write_table<D: Disks>(
    alloc: Global,
    disks: &mut D,
    table: &mut Table,
    given: &Given,
    number: u32,
) -> Result<(), WorkFault>
    requires can { CanLoad given.now.shape.now given.now.schedule.now given.now.tables.now }
    requires nodes { table.old.nodes ≡ given.now.schedule.now.nodes }
    requires there { number < length given.now.shape.now.tables }
    ensures filled { OnOk result (Filled D.Disks (table_files (setup_of given.now.shape.now given.now.schedule.now) given.now.tables.now number) disks.old table.old table.new disks.new) }
    ensures stopped { OnErr result (FilledSome D.Disks (table_files (setup_of given.now.shape.now given.now.schedule.now) given.now.tables.now number) disks.old table.old table.new disks.new) }
    ensures device { IfErr result (λ fault. AtDevice fault (Rose (D.faults disks.old) (D.faults disks.new))) }
    ensures missed { IfErr result (λ fault. AtMissed fault ⊥) }
{
    let schema = schema_of(given.shape, number);
    let rows = table_of(given.tables, number);
    let size = given.schedule.block;
    'pieces: for block in 0..given.shape.blocks.as_slice()[number as usize] {
        let bytes = text_of_block(alloc, schema, rows.as_slice(), block, size)?;
        write_block(
            alloc,
            disks,
            table,
            given.schedule,
            number,
            block,
            bytes.as_slice(),
        )?;
    }
    Ok(())
}

/// Writes a block to each of its nodes.
fn write_block<D: Disks>(
    alloc: Global,
    disks: &mut D,
    table: &mut Table,
    schedule: &Schedule,
    number: u32,
    block: u32,
    bytes: &[u8],
) -> Result<(), WorkFault>
    requires limits { KeepsLimits schedule.now }
    requires nodes { table.old.nodes ≡ schedule.now.nodes }
    ensures filled { OnOk result (Filled D.Disks (copies_of schedule.now number block bytes.now) disks.old table.old table.new disks.new) }
    ensures stopped { OnErr result (FilledSome D.Disks (copies_of schedule.now number block bytes.now) disks.old table.old table.new disks.new) }
    ensures device { IfErr result (λ fault. AtDevice fault (Rose (D.faults disks.old) (D.faults disks.new))) }
    ensures missed { IfErr result (λ fault. AtMissed fault ⊥) }
{
    let name = Name::Blk {
        table: number,
        block,
    };
    'copies: for k in 0..schedule.copies {
        let node = place(number, block, k, schedule.nodes);
        write_copy(alloc, disks, table, node, &name, bytes)?;
    }
    Ok(())
}

/// The schema of a table.
fn schema_of(shape: &Shape, number: u32) -> &Schema
    requires { number < length shape.now.tables }
    ensures { slice_get shape.now.tables number ≡ Some result.now }
{
    &shape.tables.as_slice()[number as usize]
}

/// The records of a table.
fn table_of(tables: &Tables, number: u32) -> &Records
    requires { number < length tables.now }
    ensures { slice_get tables.now number ≡ Some result.now }
{
    &tables.as_slice()[number as usize]
}

/// The text of the block of this number of records, where a block has so many.
fn text_of_block(
    alloc: Global,
    schema: &Schema,
    rows: &[Record],
    block: u32,
    size: u32,
) -> Result<Vec<u8>, Memory>
    requires { AreRecordsOf schema.now rows.now }
    ensures { IfOk result (λ bytes. bytes.items ≡ block_text schema.now (take size (drop (block * size) rows.now))) }
{
    let piece = copy_of(alloc, piece(rows, block, size))?;
    encode(alloc, &piece, schema)
}

/// The piece of this number of records, where a piece has so many.
fn piece(rows: &[Record], number: u32, size: u32) -> &[Record]
    ensures { result.now ≡ take size (drop (number * size) rows.now) }
{
    let start = number as usize * size as usize;
    let (_, left) = rows.split_at(start.min(rows.len()));
    let (piece, _) = left.split_at((size as usize).min(left.len()));
    piece
}

/// The same records once more.
fn copy_of(alloc: Global, rows: &[Record]) -> Result<Records, Memory>
    ensures { IfOk result (λ copied. copied ≡ rows.now) }
{
    let mut copied = Records::with_capacity(alloc, rows.len())?;
    'rows: for row in rows {
        copied.push(row.copy(alloc)?)?;
    }
    Ok(copied)
}
