ghost use Rattle.std.specs.Prelude.{◌≡◌};
ghost use Rattle.std.specs.Option.{option_copied, option_map};
ghost use Rattle.hal_base.specs.Shapes.{out_schema, source_at};
ghost use Rattle.hal_base.specs.declared.shape.Source.{Source as Input};

use hal_base::{Schema, Shape};

/// The schema of the stream of a source. `None` where the shape has no such source.
pub(crate) fn stream_schema(shape: &Shape, step: u32, source: u32) -> Option<&Schema>
    ensures { option_copied result ≡ option_map (λ (it : Input). it.stream) (source_at shape.now step source) }
{
    if step == 0 || source == 0 {
        return None;
    }
    let Some(step) = shape.steps.get(step as usize - 1) else {
        return None;
    };
    match step.sources.get(source as usize - 1) {
        Some(source) => Some(&source.stream),
        None => None,
    }
}

/// The schema of what a step leaves. `None` where the shape has no such step.
pub(crate) fn out_schema(shape: &Shape, step: u32) -> Option<&Schema>
    ensures { option_copied result ≡ out_schema shape.now step }
{
    if step == 0 {
        return None;
    }
    match shape.steps.get(step as usize - 1) {
        Some(step) => Some(&step.out),
        None => None,
    }
}
