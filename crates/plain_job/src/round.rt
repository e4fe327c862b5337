ghost use Rattle.std.specs.Prelude.{◌≡◌, ◌≤◌, ◌++◌, length, map, IfOk, OnOk};
ghost use Rattle.std.specs.List.{AllByRecursion};
ghost use Rattle.hal_base.specs.Shapes.{HasFewSources};
ghost use Rattle.plain_job.specs.Chain as chain;
ghost use Rattle.plain_job.specs.Chain.{numbers_from, parts_from, part_out, streams};

use crate::plain::{plain_part, plain_stream};
use hal_base::{CopyIn, Functions, Memory, Origin, Parts, Records, Shape, Sources, Step, Tables};
use std::alloc::Global;

/// What the sources of a round read besides the output before.
#[derive(Drop)]
struct Inputs<'a> {
    tables: &'a Tables,
    round: u32,
    state: &'a Records,
}

/// The parts that the last step leaves in this round, which begins with this state.
pub(crate) fn round_out<F: Functions>(
    alloc: Global,
    functions: &F,
    shape: &Shape,
    tables: &Tables,
    round: u32,
    state: &Records,
) -> Result<Parts, Memory>
    requires few_steps { length shape.now.steps ≤ 8 }
    requires few_sources { AllByRecursion HasFewSources shape.now.steps }
    ensures { IfOk result (λ out. out ≡ parts_from (F.meaning functions.now) shape.now tables.now round state.now (length shape.now.steps)) }
{
    let inputs = Inputs {
        tables,
        round,
        state,
    };
    let mut out = Parts::new(alloc);
    let mut number: u32 = 0;
    'steps: for step in shape.steps.as_slice() {
        number += 1;
        out = step_out(alloc, functions, &inputs, number, &out, step, shape.parts)?;
    }
    Ok(out)
}

/// All parts of a step, which reads the output before.
fn step_out<F: Functions>(
    alloc: Global,
    functions: &F,
    inputs: &Inputs,
    number: u32,
    before: &Parts,
    step: &Step,
    parts: u32,
) -> Result<Parts, Memory>
    requires { HasFewSources step.now }
    ensures { IfOk result (λ out. out ≡ map (part_out (F.meaning functions.now) inputs.now.round number (streams (F.meaning functions.now) inputs.now.round number (chain.source_rows inputs.now.tables.now inputs.now.round inputs.now.state.now (chain.together before.now)) 1 step.now.sources)) (numbers_from 0 parts)) }
{
    let before = together(alloc, before)?;
    let streams = streams_of(alloc, functions, inputs, number, &before, &step.sources)?;
    all_parts(alloc, functions, inputs.round, number, &streams, parts)
}

/// All parts of what a step emits.
fn all_parts<F: Functions>(
    alloc: Global,
    functions: &F,
    round: u32,
    step: u32,
    streams: &Parts,
    parts: u32,
) -> Result<Parts, Memory>
    ensures { IfOk result (λ out. out ≡ map (part_out (F.meaning functions.now) round step streams.now) (numbers_from 0 parts)) }
{
    let mut out = Parts::new(alloc);
    'parts: for part in 0..parts {
        out.push(plain_part(alloc, functions, round, step, streams, part)?)?;
    }
    Ok(out)
}

/// The streams of a step, one for each source.
fn streams_of<F: Functions>(
    alloc: Global,
    functions: &F,
    inputs: &Inputs,
    step: u32,
    before: &Records,
    sources: &Sources,
) -> Result<Parts, Memory>
    requires { length sources.now ≤ 8 }
    ensures { IfOk result (λ found. found ≡ streams (F.meaning functions.now) inputs.now.round step (chain.source_rows inputs.now.tables.now inputs.now.round inputs.now.state.now before.now) 1 sources.now) }
{
    let mut found = Parts::new(alloc);
    let mut number: u32 = 0;
    'sources: for source in sources.as_slice() {
        number += 1;
        let rows = source_rows(alloc, inputs, before, &source.from)?;
        found.push(plain_stream(alloc, functions, inputs.round, step, number, &rows)?)?;
    }
    Ok(found)
}

/// What a source reads.
fn source_rows(
    alloc: Global,
    inputs: &Inputs,
    before: &Records,
    from: &Origin,
) -> Result<Records, Memory>
    ensures { IfOk result (λ rows. rows ≡ chain.source_rows inputs.now.tables.now inputs.now.round inputs.now.state.now before.now from.now) }
{
    match from {
        Origin::State => inputs.state.copy(alloc),
        Origin::Prev => before.copy(alloc),
        Origin::Table { table, only: None } => table_at(alloc, inputs.tables, *table),
        Origin::Table {
            table,
            only: Some(only),
        } => {
            if inputs.round == *only {
                table_at(alloc, inputs.tables, *table)
            } else {
                Ok(Records::new(alloc))
            }
        }
    }
}

/// The table of this number, or no records where there is none.
pub(crate) fn table_at(alloc: Global, tables: &Tables, number: u32) -> Result<Records, Memory>
    ensures { IfOk result (λ rows. rows ≡ chain.table_at tables.now number) }
{
    match tables.get(number as usize) {
        Some(rows) => rows.copy(alloc),
        None => Ok(Records::new(alloc)),
    }
}

/// The parts of an output, one after another.
pub fn together(alloc: Global, parts: &Parts) -> Result<Records, Memory>
    ensures { IfOk result (λ rows. rows ≡ chain.together parts.now) }
{
    let mut out = Records::new(alloc);
    'parts: for rows in parts.as_slice() {
        append_rows(alloc, rows, &mut out)?;
    }
    Ok(out)
}

fn append_rows(alloc: Global, rows: &Records, out: &mut Records) -> Result<(), Memory>
    ensures { OnOk result (out.new ≡ out.old ++ rows.now) }
{
    'rows: for row in rows.as_slice() {
        out.push(row.copy(alloc)?)?;
    }
    Ok(())
}
