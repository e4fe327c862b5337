ghost use Rattle.std.specs.Prelude.{◌≡◌};
ghost use Rattle.std.specs.Option.{option_copied};
ghost use Rattle.hal_base.specs.Shapes.{source_at};

use hal_base::{Shape, Source};

/// A source of a step; both count from 1. `None` exactly where the shape has no such source.
pub fn source_of<'a>(shape: &'a Shape, step: u32, source: u32) -> Option<&'a Source>
    ensures { option_copied result ≡ source_at shape.now step source }
{
    if step == 0 || source == 0 {
        return None;
    }
    match shape.steps.get(step as usize - 1) {
        Some(step) => step.sources.get(source as usize - 1),
        None => None,
    }
}
