ghost use Rattle.std.specs.Prelude.{◌≡◌, IfOk, map};
ghost use Rattle.function_meaning.specs.Meanings as meanings;
ghost use Rattle.hal_base.specs.Shapes.{IsWellFormed};
ghost use Rattle.plain_job.specs.Fit.{FunctionsFit};
ghost use Rattle.run_laws.specs.WithoutLoss.{HasNoCaches};
ghost use Rattle.haloop_run.specs.Clearing.{cleared};
ghost use Rattle.haloop_run.specs.steps.Clearing.{cleared_source, cleared_step};

use hal_base::{Memory, Shape, Source, Sources, Step, Steps};
use loop_program::Program;
use program_fit::Runnable;
use std::alloc::Global;

/// What runs a program on a cluster: its functions, and its shape with the caches that are built alone.
/// docs/CLUSTER.md, "Caches".
pub(crate) fn without_caches(alloc: Global, program: Program) -> Result<Runnable, Memory>
    ensures functions { IfOk result (λ it. it.typed ≡ program.functions) }
    ensures uses { IfOk result (λ it. it.uses ≡ program.uses) }
    ensures shape { IfOk result (λ it. it.shape ≡ cleared program.shape) }
    ensures well_formed { IfOk result (λ it. IsWellFormed it.shape) }
    ensures fits { IfOk result (λ it. FunctionsFit (meanings.meaning_of it.typed it.uses it.shape.parts) it.shape) }
    ensures caches { IfOk result (λ it. HasNoCaches it.shape) }
{
    let Runnable { typed, uses, shape } = Runnable::new(program);
    let shape = clear_caches(alloc, shape)?;
    Ok(Runnable { typed, uses, shape })
}

/// The shape with the caches that are built alone.
fn clear_caches(alloc: Global, shape: Shape) -> Result<Shape, Memory>
    ensures { IfOk result (λ made. made ≡ cleared shape) }
{
    let steps = clear_steps(alloc, shape.steps)?;
    Ok(Shape {
        steps,
        reducer_output: false,
        ..shape
    })
}

fn clear_steps(alloc: Global, steps: Steps) -> Result<Steps, Memory>
    ensures { IfOk result (λ made. made ≡ map cleared_step steps) }
{
    let mut made = Steps::with_capacity(alloc, steps.len())?;
    'steps: for step in steps.into_vec() {
        let Step { sources, out } = step;
        let sources = clear_sources(alloc, sources)?;
        made.push(Step { sources, out })?;
    }
    Ok(made)
}

fn clear_sources(alloc: Global, sources: Sources) -> Result<Sources, Memory>
    ensures { IfOk result (λ made. made ≡ map cleared_source sources) }
{
    let mut made = Sources::with_capacity(alloc, sources.len())?;
    'sources: for source in sources.into_vec() {
        made.push(clear_source(source))?;
    }
    Ok(made)
}

fn clear_source(source: Source) -> Source
    ensures { result ≡ cleared_source source }
{
    Source {
        reducer_input: false,
        mapper_input: false,
        ..source
    }
}
