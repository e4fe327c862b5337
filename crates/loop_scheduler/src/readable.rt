ghost use Rattle.std.specs.Prelude.{◌≡◌};
ghost use Rattle.std.specs.List.{flat_map};
ghost use Rattle.run_model.specs.Needs.{is_up};
ghost use Rattle.run_model.specs.Tasks.{last_outs, source_numbers};
ghost use Rattle.loop_scheduler.specs.Reads.{can_read};
ghost use Rattle.loop_scheduler.specs.steps.Reading.{all_up, parts_read, spills_read};

use crate::reads::spill_round;
use crate::sources::{last_step, source_count};
use crate::splits::{split_count, split_of};
use crate::view::View;
use node_names::{Name, Task};

/// Whether each file of each input of a task lies on an up node. docs/CLUSTER.md, "What a task needs".
pub fn can_read(view: &View, task: &Task) -> bool
    ensures { result ≡ can_read view.now task.now }
{
    match *task {
        Task::Map {
            round,
            step,
            source,
            split,
        } => match split_of(view.shape(), round, step, source, split) {
            Some(name) => is_up(view, &name),
            None => true,
        },
        Task::Reduce { round, step, .. } => has_spills(view, round, step),
        Task::Test { round, part } => has_parts(view, round, part),
    }
}

/// Whether the file lies on an up node.
fn is_up(view: &View, name: &Name) -> bool
    ensures { result ≡ is_up view.now.copies view.now.up name.now }
{
    view.where_is(name).count() > 0
}

/// Whether the spills that a reduce reads lie on up nodes.
fn has_spills(view: &View, round: u32, step: u32) -> bool
    ensures { result ≡ all_up view.now (flat_map (spills_read view.now.shape round step) (source_numbers view.now.shape step)) }
{
    'sources: for source in 1..source_count(view.shape(), step) + 1 {
        if !has_source(view, round, step, source) {
            return false;
        }
    }
    true
}

/// Whether the spills that a reduce reads of a source lie on up nodes.
fn has_source(view: &View, round: u32, step: u32, source: u32) -> bool
    ensures { result ≡ all_up view.now (spills_read view.now.shape round step source) }
{
    let made = spill_round(view.shape(), round, step, source);
    'splits: for split in 0..split_count(view.shape(), made, step, source) {
        let spill = Name::Spill {
            round: made,
            step,
            source,
            split,
        };
        if !is_up(view, &spill) {
            return false;
        }
    }
    true
}

/// Whether the parts that a test reads lie on up nodes.
fn has_parts(view: &View, round: u32, part: u32) -> bool
    ensures { result ≡ all_up view.now (flat_map (λ names. names) (parts_read view.now.shape round part)) }
{
    let before = round.saturating_sub(1);
    if !view.shape().reducer_output {
        return has_all_parts(view, round) && has_all_parts(view, before);
    }
    let step = last_step(view.shape());
    let new = Name::Out { round, step, part };
    let old = Name::Out {
        round: before,
        step,
        part,
    };
    is_up(view, &new) && is_up(view, &old)
}

/// Whether all parts of what a round leaves lie on up nodes.
fn has_all_parts(view: &View, round: u32) -> bool
    ensures { result ≡ all_up view.now (last_outs view.now.shape round) }
{
    let step = last_step(view.shape());
    'parts: for part in 0..view.shape().parts {
        if !is_up(view, &Name::Out { round, step, part }) {
            return false;
        }
    }
    true
}
