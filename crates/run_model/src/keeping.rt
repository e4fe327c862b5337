ghost use Rattle.std.specs.Prelude.{◌≡◌, ◌≤◌};
ghost use Rattle.hal_base.specs.Shapes.{source_at};
ghost use Rattle.run_model.specs.Stays.{kept_round, stays};
ghost use Rattle.run_model.specs.Tasks.{IsName, is_cached};

use crate::sources::source_of;
use hal_base::Shape;
use node_names::Name;

/// Whether the source has the reducer input cache.
fn has_cache(shape: &Shape, step: u32, source: u32) -> bool
    ensures { result ≡ is_cached (source_at shape.now step source) }
{
    match source_of(shape, step, source) {
        Some(source) => source.reducer_input,
        None => false,
    }
}

/// The greatest multiple of `keep` below the round.
fn kept_round(keep: u32, round: u32) -> u32
    requires begun { 1 ≤ round }
    requires some { 1 ≤ keep }
    ensures { result ≡ kept_round keep round }
{
    keep * ((round - 1) / keep)
}

/// Whether a file of this name stays in the round. docs/CLUSTER.md, "What stays".
pub fn stays(name: &Name, round: u32, keep: u32, shape: &Shape) -> bool
    requires named { IsName shape.now name.now }
    requires begun { 1 ≤ round }
    requires some { 1 ≤ keep }
    ensures { result ≡ stays shape.now keep round name.now }
{
    match *name {
        Name::Blk { .. } | Name::Ric { .. } | Name::Mic { .. } => true,
        Name::Spill {
            round: made,
            step,
            source,
            ..
        } => made == round || (made == 1 && has_cache(shape, step, source)),
        Name::Out {
            round: made,
            step,
            ..
        } => {
            made == round || (step as usize == shape.steps.len() && kept_round(keep, round) <= made)
        }
        Name::Roc { round: made, .. } => made == round || made == round - 1,
    }
}
