ghost use Rattle.std.specs.Prelude.{◌≡◌};
ghost use Rattle.hal_base.specs.Shapes.{IsWellFormed, source_at, step_at};
ghost use Rattle.run_model.specs.Tasks.{is_cached, last, source_count};

use hal_base::Shape;
use run_model::source_of;

/// The number of the last step.
pub fn last_step(shape: &Shape) -> u32
    requires { IsWellFormed shape.now }
    ensures { result ≡ last shape.now }
{
    shape.steps.len() as u32
}

/// How many sources a step has: none where the shape has no such step. Steps count from 1.
pub fn source_count(shape: &Shape, step: u32) -> u32
    requires { IsWellFormed shape.now }
    ensures { result ≡ source_count (step_at shape.now step) }
{
    if step == 0 {
        return 0;
    }
    match shape.steps.get(step as usize - 1) {
        Some(step) => step.sources.len() as u32,
        None => 0,
    }
}

/// Whether a source of a step has the reducer input cache. Steps and sources count from 1.
pub fn is_cached(shape: &Shape, step: u32, source: u32) -> bool
    ensures { result ≡ is_cached (source_at shape.now step source) }
{
    match source_of(shape, step, source) {
        Some(source) => source.reducer_input,
        None => false,
    }
}
