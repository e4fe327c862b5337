ghost use Rattle.std.specs.Prelude.{◌≡◌, true, IfOk};
ghost use Rattle.std.specs.List.{list_any};
ghost use Rattle.hal_base.specs.declared.shape.Origin.TheVariants as origin;
ghost use Rattle.memory_run.specs.declared.inputs.Input.TheVariants as input;
ghost use Rattle.memory_run.specs.steps.Inputs.{read_by_sources, read_by_steps, reads, same_place};

use crate::sections::Sections;
use hal_base::{Memory, Origin, Shape, Source};
use std::alloc::Global;
use std::marker::Model;

/// What a source is given: sections that are kept over the rounds, or what it reads there.
#[derive(Drop)]
pub(crate) enum Input {
    Kept(Sections),
    Read(Origin),
}

impl Input {
    /// Whether it reads there, in whatever rounds.
    pub(crate) fn reads(&self, place: &Origin) -> bool
        ensures { result ≡ reads place.now self.now }
    {
        match self {
            Input::Kept(_) => false,
            Input::Read(from) => is_same_place(place, from),
        }
    }

    pub(crate) fn reads_state(&self) -> bool
        ensures { result ≡ true → self.now ≡ input.Read origin.State }
    {
        matches!(self, Input::Read(Origin::State))
    }
}

fn is_same_place(a: &Origin, b: &Origin) -> bool
    ensures { result ≡ same_place a.now b.now }
{
    match (a, b) {
        (Origin::State, Origin::State) => true,
        (Origin::Prev, Origin::Prev) => true,
        (Origin::Table { table: a, only: _ }, Origin::Table { table: b, only: _ }) => *a == *b,
        _ => false,
    }
}

/// The inputs of the sources of a step.
#[derive(Drop)]
pub(crate) struct StepInputs {
    pub(crate) all: Vec<Input>,
}

impl Model for StepInputs {
    ghost use Rattle.std.specs.Prelude.{List};
    ghost use Rattle.memory_run.specs.declared.inputs.Input.{Input as One};

    ghost Value = { List One };

    ghost view = { λ s. s.all.items };
}

impl StepInputs {
    pub(crate) fn as_slice(&self) -> &[Input]
        ensures { result.now ≡ self.now }
    {
        self.all.as_slice()
    }
}

/// Whether one of these reads there.
pub(crate) fn any_reads(place: &Origin, inputs: &[Input]) -> bool
    ensures { result ≡ list_any (reads place.now) inputs.now }
{
    inputs.iter().any(|input| input.reads(place))
}

/// Whether a source of one of these steps reads there.
pub(crate) fn is_read(place: &Origin, plan: &[StepInputs]) -> bool
    ensures { result ≡ list_any (list_any (reads place.now)) plan.now }
{
    plan.iter()
        .any(|inputs| any_reads(place, inputs.as_slice()))
}

/// For each source of each step, where it reads.
pub(crate) fn all_read(alloc: Global, shape: &Shape) -> Result<Vec<StepInputs>, Memory>
    ensures { IfOk result (λ plan. plan.items ≡ read_by_steps shape.now.steps) }
{
    let mut plan = Vec::new(alloc);
    'steps: for step in shape.steps.as_slice() {
        plan.push(read_by(alloc, step.sources.as_slice())?)?;
    }
    Ok(plan)
}

/// For each source, where it reads.
fn read_by(alloc: Global, sources: &[Source]) -> Result<StepInputs, Memory>
    ensures { IfOk result (λ inputs. inputs ≡ read_by_sources sources.now) }
{
    let mut all = Vec::new(alloc);
    'sources: for source in sources {
        all.push(Input::Read(source.from))?;
    }
    Ok(StepInputs { all })
}
