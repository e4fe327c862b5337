ghost use Rattle.std.specs.Prelude.{◌≡◌, ◌≤◌, ◌-◌, [], ◌∷◌};
ghost use Rattle.node_names.specs.declared.name.Name.TheVariants as name;
ghost use Rattle.node_names.specs.declared.task.Task.TheVariants as task;
ghost use Rattle.run_model.specs.Sites.{favoured};
ghost use Rattle.run_model.specs.Tasks.{last, last_outs};
ghost use Rattle.loop_scheduler.specs.steps.Choosing.{cache_names, holders_of};

use crate::holder_sets::HolderSets;
use crate::sources::{is_cached, last_step, source_count};
use crate::view::View;
use node_names::Name;

/// The holders of the reducer input caches of a part of a step.
pub fn cache_holders(view: &View, step: u32, part: u32) -> HolderSets
    ensures { result ≡ holders_of view.now (cache_names view.now.shape step part) }
{
    let mut sets = HolderSets::new();
    'sources: for source in 1..source_count(view.shape(), step) + 1 {
        if is_cached(view.shape(), step, source) {
            sets.push(view.where_is(&Name::Ric { step, source, part }));
        }
    }
    sets
}

/// The holders of what a test favours.
pub fn test_holders(view: &View, round: u32, part: u32) -> HolderSets
    requires { 2 ≤ round }
    ensures { result ≡ holders_of view.now (favoured view.now.shape (task.Test round part)) }
{
    if view.shape().reducer_output {
        kept_holders(view, round, part)
    } else {
        part_holders(view, round)
    }
}

/// The holders of a new part, and of the reducer output cache of the old one.
fn kept_holders(view: &View, round: u32, part: u32) -> HolderSets
    requires { 2 ≤ round }
    ensures { result ≡ holders_of view.now (name.Out round (last view.now.shape) part ∷ name.Roc (round - 1) part ∷ []) }
{
    let step = last_step(view.shape());
    let mut sets = HolderSets::new();
    sets.push(view.where_is(&Name::Out { round, step, part }));
    sets.push(view.where_is(&Name::Roc {
        round: round - 1,
        part,
    }));
    sets
}

/// The holders of all new parts.
fn part_holders(view: &View, round: u32) -> HolderSets
    ensures { result ≡ holders_of view.now (last_outs view.now.shape round) }
{
    let step = last_step(view.shape());
    let mut sets = HolderSets::new();
    'parts: for part in 0..view.shape().parts {
        sets.push(view.where_is(&Name::Out { round, step, part }));
    }
    sets
}
