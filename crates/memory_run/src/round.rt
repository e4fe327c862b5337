ghost use Rattle.std.specs.Prelude.{◌≡◌, [], true, map, IfOk, OnOk};
ghost use Rattle.hal_base.specs.Shapes.{IsWellFormed};
ghost use Rattle.plain_job.specs.Chain.{source_rows, together};
ghost use Rattle.plain_job.specs.Job.{job};
ghost use Rattle.memory_run.specs.steps.Sections.{first_section, later_sections, left_of};
ghost use Rattle.memory_run.specs.steps.Inputs.{FewInEach, FewInputs, plan_made, step_made, with_first, with_made};

use crate::inputs::{Input, StepInputs};
use crate::sections::{Sections, Spill, take_sections};
use crate::sources::{RoundContext, spills_of};
use group_reduce::reduce_part;
use hal_base::{Functions, Memory, Parts, Records};
use std::alloc::Global;

/// The parts that the last step leaves in this round. The sections of the first source of the first
/// step are made already, where they are handed in.
pub(crate) fn round_out<F: Functions>(
    alloc: Global,
    functions: &F,
    context: &RoundContext,
    made: Option<Sections>,
    plan: &[StepInputs],
) -> Result<Parts, Memory>
    requires shape { IsWellFormed context.now.shape.now }
    requires few { FewInEach plan.now }
    ensures { IfOk result (λ out. out ≡ plan_made (F.meaning functions.now) context.now.shape.now.parts context.now.tables.now context.now.round 1 (together context.now.state.now) [] (with_made made plan.now)) }
{
    let mut out = Parts::new(alloc);
    let mut made = made;
    let mut number: u32 = 0;
    'steps: for sources in plan {
        number += 1;
        let first = made.take();
        out = step_out(
            alloc,
            functions,
            context,
            number,
            first,
            out,
            sources.as_slice(),
        )?;
    }
    Ok(out)
}

/// All parts of what a step emits.
fn step_out<F: Functions>(
    alloc: Global,
    functions: &F,
    context: &RoundContext,
    number: u32,
    made: Option<Sections>,
    before: Parts,
    inputs: &[Input],
) -> Result<Parts, Memory>
    requires shape { IsWellFormed context.now.shape.now }
    requires few { FewInputs inputs.now }
    ensures { IfOk result (λ out. out ≡ step_made (F.meaning functions.now) context.now.shape.now.parts (source_rows context.now.tables.now context.now.round (together context.now.state.now) (together before)) context.now.round number (with_first made inputs.now)) }
{
    let mut spills = spills_of(alloc, functions, context, number, made, before, inputs)?;
    let parts = context.shape.parts;
    let mut out = Parts::with_capacity(alloc, parts as usize)?;
    'parts: for _part in 0..parts {
        out.push(next_part(alloc, functions, context.round, number, &mut spills)?)?;
    }
    Ok(out)
}

/// Takes the first section of each spill, and makes of them a part of what the step emits.
fn next_part<F: Functions>(
    alloc: Global,
    functions: &F,
    round: u32,
    step: u32,
    spills: &mut [Spill<'_>],
) -> Result<Records, Memory>
    ensures part { IfOk result (λ out. out ≡ job ((F.meaning functions.now).reduce round step) (λ _. true) (map first_section (map left_of spills.old))) }
    ensures later { OnOk result (map left_of spills.new ≡ map later_sections (map left_of spills.old)) }
{
    let mut streams = take_sections(alloc, spills)?;
    reduce_part(alloc, functions, round, step, &mut streams)
}
