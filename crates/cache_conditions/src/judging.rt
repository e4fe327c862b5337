ghost use Rattle.std.specs.Prelude.{◌≡◌, ◌<◌, ◌≤◌, ◌++◌, suc, length, IfOk, OnOk};
ghost use Rattle.cache_conditions.specs.Conditions as spec;
ghost use Rattle.loop_program.specs.Caches as caches;
ghost use Rattle.loop_program.specs.Caches.{HasItsCaches};

use crate::verdict::{SourceVerdict, SourceVerdicts, Verdicts};
use hal_base::{Memory, Source, Step};
use loop_program::{Program, Verdict, has_mapper_input, input_verdict, output_verdict};
use std::alloc::Global;

/// The verdicts on a program: on each source whether it has the reducer input cache and the mapper input cache, and
/// whether the state has the reducer output cache. The flags of its shape are these verdicts. docs/LANGUAGE.md, "Caches".
pub fn conditions(alloc: Global, program: &Program) -> Result<Verdicts, Memory>
    ensures found { IfOk result (λ found. found ≡ spec.verdicts program.now) }
    ensures flags { HasItsCaches program.now }
{
    let mut sources = SourceVerdicts::new(alloc);
    'steps: for (at, step) in program.shape.steps.as_slice().iter().enumerate() {
        push_step(&mut sources, program, number_of(at), step)?;
    }
    Ok(Verdicts {
        sources,
        output: state_verdict(program),
    })
}

/// Adds the verdicts on the sources of a step.
fn push_step(
    out: &mut SourceVerdicts,
    program: &Program,
    number: u32,
    step: &Step,
) -> Result<(), Memory>
    requires { length step.now.sources ≤ 8 }
    ensures { OnOk result (out.new ≡ out.old ++ spec.step_verdicts program.now number 1 step.now.sources) }
{
    'sources: for (at, source) in step.sources.as_slice().iter().enumerate() {
        out.push(source_verdict(program, number, number_of(at), source))?;
    }
    Ok(())
}

/// The number from 1 on of what stands at this place from 0 on, among at most eight.
fn number_of(at: usize) -> u32
    requires { at < 8 }
    ensures { result ≡ suc at }
{
    at as u32 + 1
}

/// The verdicts on a source of a step.
fn source_verdict(program: &Program, step: u32, source: u32, read: &Source) -> SourceVerdict
    ensures { result ≡ spec.source_verdict program.now step source read.now }
{
    let input = input_verdict(
        &program.typed,
        &program.uses,
        program.asked,
        step,
        source,
        read.from,
    );
    SourceVerdict {
        step,
        source,
        input,
        mapper: has_mapper_input(program.asked, read.from, input),
    }
}

/// The verdict on the reducer output cache of the state.
fn state_verdict(program: &Program) -> Verdict
    ensures { result ≡ caches.output_of program.now }
{
    let last = program.shape.steps.len() as u32;
    output_verdict(&program.typed, &program.uses, program.asked, last)
}
