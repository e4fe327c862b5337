ghost use Rattle.std.specs.Prelude.{◌≡◌, true, IfSome};
ghost use Rattle.hal_base.specs.Shapes.{IsWellFormed};
ghost use Rattle.replica_table.specs.Sets.{among};
ghost use Rattle.run_model.specs.Needs.{is_there, is_up};
ghost use Rattle.run_model.specs.State.{holds};
ghost use Rattle.node_names.specs.declared.task.Task.TheVariants.{Test};
ghost use Rattle.run_model.specs.Sites.{site};
ghost use Rattle.run_model.specs.Tasks.{IsTask, spills, split};
ghost use Rattle.cache_rebuild.specs.steps.Files.{files_if, files_in};
ghost use Rattle.cache_rebuild.specs.steps.Needing.{input_count, needed, parts_of, source_needs};

use crate::files::Files;
use hal_base::Shape;
use loop_scheduler::{View, is_cached, last_step, site, source_count, split_count, split_of};
use node_names::{Name, Task};

/// The node that a task goes to, which is up. `None` where no node is up and idle.
pub fn up_site(task: &Task, view: &View) -> Option<u32>
    requires { IsTask view.now.shape task.now }
    ensures place { result ≡ site view.now task.now }
    ensures up { IfSome result (λ node. among node view.now.up ≡ true) }
{
    let _idle = view.idle();
    site(task, view)
}

/// Whether some up node holds the file.
pub fn is_up(view: &View, name: &Name) -> bool
    ensures { result ≡ is_up view.now.copies view.now.up name.now }
{
    view.where_is(name).count() > 0
}

/// Whether a node, which is up, holds the file.
fn holds(view: &View, node: u32, name: &Name) -> bool
    requires { among node view.now.up ≡ true }
    ensures { result ≡ holds view.now.copies node name.now }
{
    view.where_is(name).has(node)
}

/// Whether a file that a task needs at a node, which is up, is there: some up node holds it, or this one the cache of the
/// block.
pub fn is_there(view: &View, node: u32, name: &Name) -> bool
    requires { among node view.now.up ≡ true }
    ensures { result ≡ is_there view.now.copies view.now.up node name.now }
{
    match *name {
        Name::Blk { table, block } => {
            is_up(view, name)
                || holds(view, node, name)
                || holds(view, node, &Name::Mic { table, block })
        }
        _ => is_up(view, name),
    }
}

/// How many inputs a task has: a reduce one for each source, a test the new parts and the old ones.
pub fn input_count(shape: &Shape, task: &Task) -> u32
    requires { IsWellFormed shape.now }
    ensures { result ≡ input_count shape.now task.now }
{
    match *task {
        Task::Map { .. } => 1,
        Task::Reduce { step, .. } => source_count(shape, step),
        Task::Test { .. } => 2,
    }
}

/// The files that a task needs of an input at a node, which is up. Inputs count from 1. `None` where it needs none, as where
/// the node holds the cache that stands for them.
pub fn needed(view: &View, node: u32, task: &Task, input: u32) -> Option<Files>
    requires { among node view.now.up ≡ true }
    ensures { files_if result ≡ needed view.now node task.now input }
{
    match *task {
        Task::Map {
            round,
            step,
            source,
            split,
        } => split_needed(view.shape(), round, step, source, split),
        Task::Reduce { round, step, part } => source_needed(view, node, round, step, part, input),
        Task::Test { round, part } => test_needed(view, node, round, part, input),
    }
}

/// The split that a map reads.
fn split_needed(shape: &Shape, round: u32, step: u32, source: u32, number: u32) -> Option<Files>
    requires { IsWellFormed shape.now }
    ensures { files_if result ≡ split shape.now round step source number }
{
    match split_of(shape, round, step, source, number) {
        Some(name) => Some(Files::Single(name)),
        None => None,
    }
}

/// The spills that a reduce needs of a source.
fn source_needed(
    view: &View,
    node: u32,
    round: u32,
    step: u32,
    part: u32,
    source: u32,
) -> Option<Files>
    requires { among node view.now.up ≡ true }
    ensures { files_if result ≡ source_needs view.now node round step part source }
{
    if !is_cached(view.shape(), step, source) {
        return Some(source_spills(view.shape(), round, step, source));
    }
    if holds(view, node, &Name::Ric { step, source, part }) {
        None
    } else {
        Some(source_spills(view.shape(), 1, step, source))
    }
}

/// The spills of a source in a round.
fn source_spills(shape: &Shape, round: u32, step: u32, source: u32) -> Files
    ensures { files_in result ≡ spills shape.now round step source }
{
    Files::Spills {
        round,
        step,
        source,
        splits: split_count(shape, round, step, source),
    }
}

/// What a test needs of the new parts, and of the old ones.
fn test_needed(view: &View, node: u32, round: u32, part: u32, input: u32) -> Option<Files>
    requires { among node view.now.up ≡ true }
    ensures { files_if result ≡ needed view.now node (Test round part) input }
{
    if input == 1 {
        return Some(parts_of(view.shape(), round, part));
    }
    let before = round.saturating_sub(1);
    if view.shape().reducer_output
        && holds(
            view,
            node,
            &Name::Roc {
                round: before,
                part,
            },
        )
    {
        None
    } else {
        Some(parts_of(view.shape(), before, part))
    }
}

/// The parts that a test reads of what a round gave: its own where the output is cached, else all.
fn parts_of(shape: &Shape, round: u32, part: u32) -> Files
    requires { IsWellFormed shape.now }
    ensures { files_in result ≡ parts_of shape.now round part }
{
    let step = last_step(shape);
    if shape.reducer_output {
        Files::Single(Name::Out { round, step, part })
    } else {
        Files::Parts {
            round,
            step,
            parts: shape.parts,
        }
    }
}
