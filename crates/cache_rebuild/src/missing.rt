ghost use Rattle.std.specs.Prelude.{◌≡◌, ◌≤◌, [], true, IfNone, IfOk};
ghost use Rattle.std.specs.List.{flat_map};
ghost use Rattle.std.specs.Option.{option_map};
ghost use Rattle.replica_table.specs.Sets.{among};
ghost use Rattle.run_model.specs.Tasks.{IsTask};
ghost use Rattle.run_model.specs.Wanted.{block_in, first_missing_block, lesser, missing_blocks, missing_of};
ghost use Rattle.cache_rebuild.specs.Goals.{block_at, plain_goal};
ghost use Rattle.cache_rebuild.specs.steps.Asking.{gone};
ghost use Rattle.cache_rebuild.specs.steps.Blocks.{blocks_if, least_on, name_if};

use crate::goal::Goal;
use crate::needs::{is_there, up_site};
use crate::wanting::wanted;
use hal_base::Memory;
use loop_scheduler::{View, split_of};
use node_names::{Name, Task};
use std::alloc::Global;

/// The first block that a wanted map needs and that is not there: its table and its number, both from 0. `None` exactly where
/// each such block is there. Errors: want of memory. docs/CLUSTER.md, "Wanted tasks".
pub fn first_missing_block(
    alloc: Global,
    goal: &Goal,
    view: &View,
) -> Result<Option<(u32, u32)>, Memory>
    requires { 1 ≤ goal.now.round }
    ensures block { IfOk result (λ block. option_map block_at block ≡ first_missing_block view.now (plain_goal goal.now)) }
    ensures none { IfOk result (λ block. IfNone block (missing_blocks view.now (plain_goal goal.now) ≡ [])) }
{
    least_missing(alloc, goal, view)
}

/// The same block, found from the last wanted task to the first.
fn least_missing(alloc: Global, goal: &Goal, view: &View) -> Result<Option<(u32, u32)>, Memory>
    requires { 1 ≤ goal.now.round }
    ensures { IfOk result (λ block. option_map block_at block ≡ first_missing_block view.now (plain_goal goal.now)) }
{
    let mut left = wanted(alloc, goal, view)?.into_vec();
    let mut first = None;
    'tasks: while let Some(task) = left.pop() {
        first = with_missing(view, &task, first);
    }
    Ok(first)
}

/// The first of the block that a task misses, if it misses one, and another block, if there is one.
fn with_missing(view: &View, task: &Task, other: Option<(u32, u32)>) -> Option<(u32, u32)>
    requires { IsTask view.now.shape task.now }
    ensures { option_map block_at result ≡ least_on (flat_map block_in (missing_of view.now task.now)) (option_map block_at other) }
{
    match missing_block(view, task) {
        Some(block) => Some(earlier(block, other)),
        None => other,
    }
}

/// The block that a map reads, where it is not there at the map's site.
fn missing_block(view: &View, task: &Task) -> Option<(u32, u32)>
    requires { IsTask view.now.shape task.now }
    ensures { flat_map block_in (missing_of view.now task.now) ≡ blocks_if result }
{
    match *task {
        Task::Map {
            round,
            step,
            source,
            split,
        } => match up_site(task, view) {
            Some(node) => {
                block_missing(
                    view,
                    node,
                    split_of(view.shape(), round, step, source, split),
                )
            }
            None => None,
        },
        Task::Reduce { .. } => None,
        Task::Test { .. } => None,
    }
}

/// The block of a split, where it is not there at a node.
fn block_missing(view: &View, node: u32, split: Option<Name>) -> Option<(u32, u32)>
    requires { among node view.now.up ≡ true }
    ensures { flat_map block_in (gone view.now node (name_if split)) ≡ blocks_if result }
{
    match split {
        Some(Name::Blk { table, block }) => {
            if is_there(view, node, &Name::Blk { table, block }) {
                None
            } else {
                Some((table, block))
            }
        }
        _ => None,
    }
}

/// The earlier of a block and another one, if there is one, by table and number.
fn earlier(a: (u32, u32), b: Option<(u32, u32)>) -> (u32, u32)
    ensures { block_at result ≡ lesser (block_at a) (option_map block_at b) }
{
    match b {
        Some(b) if b.0 < a.0 || (b.0 == a.0 && b.1 < a.1) => b,
        _ => a,
    }
}
