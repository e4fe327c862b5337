ghost use Rattle.std.specs.Prelude.{◌≡◌, ◌≤◌, ◌↔◌, IfOk};
ghost use Rattle.node_names.specs.declared.task.Task.{Task as AnyTask};
ghost use Rattle.run_model.specs.Lists.{IsIn};
ghost use Rattle.run_model.specs.Wanted.{IsWanted, wanted};
ghost use Rattle.cache_rebuild.specs.Goals.{plain_goal};

use crate::goal::Goal;
use crate::walk::Walk;
use hal_base::Memory;
use loop_scheduler::{Tasks, View};
use std::alloc::Global;

/// The tasks that are wanted, in task order: the reduces of the parts that the goal lacks, its tests that are not known, and,
/// for each wanted task, the tasks that make what it lacks at its site, through earlier rounds where needed. Errors: want of
/// memory. docs/CLUSTER.md, "Wanted tasks".
pub fn wanted(alloc: Global, goal: &Goal, view: &View) -> Result<Tasks, Memory>
    requires { 1 ≤ goal.now.round }
    ensures tasks { IfOk result (λ tasks. tasks ≡ wanted view.now (plain_goal goal.now)) }
    ensures least { IfOk result (λ tasks. (task : AnyTask) → IsIn task tasks ↔ IsWanted view.now (plain_goal goal.now) task) }
{
    let _shape = view.shape();
    walk_rounds(alloc, goal, view)
}

/// Looks at the tasks round by round, from that of the goal down, and passes over rounds of which nothing is asked for.
fn walk_rounds(alloc: Global, goal: &Goal, view: &View) -> Result<Tasks, Memory>
    requires { 1 ≤ goal.now.round }
    ensures { IfOk result (λ tasks. tasks ≡ wanted view.now (plain_goal goal.now)) }
{
    let mut walk = Walk::begin(alloc, goal, view)?;
    let mut round = goal.round;
    walk.look_through(alloc, goal, view, round)?;
    'rounds: while let Some(before) = walk.round_before(round) {
        walk.look_through(alloc, goal, view, before)?;
        round = before;
    }
    Ok(walk.into_tasks())
}
