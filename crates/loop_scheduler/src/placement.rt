ghost use Rattle.std.specs.Prelude.{◌≡◌, ◌++◌, [], ◌∷◌, true, IfSome, IfNone, MatchOption};
ghost use Rattle.std.specs.List.{filter};
ghost use Rattle.hal_base.specs.Shapes.{source_at};
ghost use Rattle.replica_table.specs.Sets.{among, members};
ghost use Rattle.run_model.specs.Sites.{holds_one, kept_split, site};
ghost use Rattle.run_model.specs.Tasks.{IsTask, split};
ghost use Rattle.loop_scheduler.specs.steps.Choosing.{holders_if};

use crate::choice::{holder_in_turn, most_favoured};
use crate::favoured::{cache_holders, test_holders};
use crate::splits::split_of;
use crate::view::View;
use hal_base::{Origin, Shape};
use node_names::{Name, Task};
use replica_table::NodeSet;
use run_model::source_of;

/// The node that a task goes to: a map to a holder of its split, a reduce or a test to the lowest node with the most of
/// what it favours, each of them up and idle. `None` exactly where no node is up and idle. docs/CLUSTER.md, "Where a task
/// goes".
pub fn site(task: &Task, view: &View) -> Option<u32>
    requires { IsTask view.now.shape task.now }
    ensures place { result ≡ site view.now task.now }
    ensures none { IfNone result (view.now.idle ≡ []) }
    ensures idle { IfSome result (λ node. among node view.now.idle ≡ true) }
{
    chosen(task, view)
}

fn chosen(task: &Task, view: &View) -> Option<u32>
    requires { IsTask view.now.shape task.now }
    ensures { result ≡ site view.now task.now }
{
    match *task {
        Task::Map {
            round,
            step,
            source,
            split,
        } => {
            let holders = split_holders(view, round, step, source, split);
            holder_in_turn(split, holders, view.idle())
        }
        Task::Reduce { step, part, .. } => {
            most_favoured(part, &cache_holders(view, step, part), view.idle())
        }
        Task::Test { round, part } => {
            most_favoured(part, &test_holders(view, round, part), view.idle())
        }
    }
}

/// The up idle nodes that hold a split, or the mapper input cache of its block.
fn split_holders(view: &View, round: u32, step: u32, source: u32, number: u32) -> NodeSet
    ensures { members result.0 ≡ filter (holds_one view.now.copies (split view.now.shape round step source number ++ kept_split (source_at view.now.shape step source) number)) view.now.idle }
{
    let files = holders_if(view, split_of(view.shape(), round, step, source, number));
    let caches = holders_if(view, kept_block(view.shape(), step, source, number));
    view.idle().both(files.either(caches))
}

/// The mapper input cache of the block that is this split. `None` exactly where the source has no such cache.
fn kept_block(shape: &Shape, step: u32, source: u32, number: u32) -> Option<Name>
    ensures { MatchOption result (kept_split (source_at shape.now step source) number ≡ []) (λ name. kept_split (source_at shape.now step source) number ≡ name ∷ []) }
{
    match source_of(shape, step, source) {
        Some(it) => match it.from {
            Origin::Table { table, .. } if it.mapper_input => Some(Name::Mic {
                table,
                block: number,
            }),
            _ => None,
        },
        None => None,
    }
}

/// The up nodes that hold the name, if there is one.
fn holders_if(view: &View, name: Option<Name>) -> NodeSet
    ensures { members result.0 ≡ holders_if view.now name }
{
    match name {
        Some(name) => view.where_is(&name),
        None => NodeSet::empty(),
    }
}
