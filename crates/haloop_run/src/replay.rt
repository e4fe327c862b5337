ghost use Rattle.std.specs.Prelude.{◌≡◌, ◌≤◌, IfErr, IfOk, IsSome, map};
ghost use Rattle.std.specs.List.{AllByRecursion};
ghost use Rattle.cluster_core.specs.Clusters.{CanBegin};
ghost use Rattle.cluster_core.specs.Disks.{Leaves};
ghost use Rattle.cluster_core.specs.Loading.{IsOver, setup_of as cluster_setup};
ghost use Rattle.haloop_run.specs.Replays.{block_count};
ghost use Rattle.haloop_run.specs.steps.Inputs.{CanRun};
ghost use Rattle.haloop_run.specs.steps.Runs.{AreFew, IsLoadedFor, IsRefusedLoad, IsRefusedRun, IsReplayed};
ghost use Rattle.hal_outside.specs.Told.{OnTold};
ghost use Rattle.name_values.specs.Values.{World};
ghost use Rattle.plain_job.specs.Fit.{TablesFit};
ghost use Rattle.valid_copies.specs.RightCalls.{RightCalls};

use crate::clearing::without_caches;
use cluster_core::{Cluster, CoreFault};
use counter_report::{Report, tally};
use function_eval::Evaluator;
use hal_base::{Counts, Memory, Parts, Records, Shape, Tables};
use hal_outside::Disks;
use loop_program::Program;
use program_fit::Runnable;
use schedule_text::Schedule;
use std::alloc::Global;

/// What a run of the cluster left: the parts of the last step in its last round, and the counts of its journal.
#[derive(Drop)]
pub(crate) struct Replayed {
    pub(crate) parts: Parts,
    pub(crate) report: Report,
}

/// Runs a program over its tables on the cluster of a schedule.
pub(crate) fn replay<D: Disks>(
    alloc: Global,
    program: Program,
    schedule: Schedule,
    tables: Tables,
    disks: &mut D,
) -> Result<Replayed, CoreFault>
    requires fit { TablesFit program.shape tables }
    requires few { AllByRecursion AreFew tables }
    requires can { CanRun schedule }
    ensures left { Leaves D.Disks schedule.nodes disks.old disks.new }
    ensures replayed { IfOk result (IsReplayed D.Disks program schedule tables disks.old disks.new) }
    ensures refused { IfErr result (IsRefusedRun D.Disks program schedule tables disks.old disks.new) }
{
    let blocks = block_counts(alloc, &tables, schedule.block)?;
    let Runnable { typed, uses, shape } = without_caches(alloc, program.with_blocks(blocks))?;
    let functions = Evaluator::new(alloc, typed, uses, shape.parts)?;
    let mut cluster = match loaded_cluster(alloc, shape, schedule, tables, disks) {
        Ok(cluster) => cluster,
        Err(fault) => return Err(fault),
    };
    match cluster.run(alloc, &functions, disks) {
        Ok(finished) => Ok(Replayed {
            parts: finished.parts,
            report: tally(cluster.journal()),
        }),
        Err(fault) => Err(fault),
    }
}

/// The cluster of a schedule, loaded with the tables, which are given up.
fn loaded_cluster<D: Disks>(
    alloc: Global,
    shape: Shape,
    schedule: Schedule,
    tables: Tables,
    disks: &mut D,
) -> Result<Cluster, CoreFault>
    requires can { CanBegin shape schedule }
    requires fit { TablesFit shape tables }
    ensures loaded { IfOk result (IsLoadedFor D.Disks (cluster_setup shape schedule) tables disks.old disks.new) }
    ensures refused { IfErr result (IsRefusedLoad D.Disks (cluster_setup shape schedule) disks.old disks.new) }
    ensures texts { (w : World) → IsOver shape tables schedule.block w → OnTold (RightCalls w) (D.told disks.old) (D.told disks.new) }
    ensures not_missed { IsSome (D.told disks.old) → D.misses disks.new ≡ D.misses disks.old }
    ensures left { Leaves D.Disks schedule.nodes disks.old disks.new }
{
    Cluster::load(alloc, shape, schedule, &tables, disks)
}

/// How many blocks each table has, of so many records but for the last.
fn block_counts(alloc: Global, tables: &Tables, block: u32) -> Result<Counts, Memory>
    requires some { 1 ≤ block }
    requires few { AllByRecursion AreFew tables.now }
    ensures { IfOk result (λ counts. counts ≡ map (block_count block) tables.now) }
{
    let mut counts = Counts::new(alloc);
    'tables: for rows in tables.as_slice() {
        counts.push(block_count(rows, block))?;
    }
    Ok(counts)
}

/// How many blocks there are of so many records.
fn block_count(rows: &Records, block: u32) -> u32
    requires some { 1 ≤ block }
    requires few { AreFew rows.now }
    ensures { result ≡ block_count block rows.now }
{
    (rows.len() as u32).div_ceil(block)
}
