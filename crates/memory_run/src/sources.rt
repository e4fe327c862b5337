ghost use Rattle.std.specs.Prelude.{◌≡◌, ◌≤◌, [], map, IfOk, OnOk, length};
ghost use Rattle.hal_base.specs.Shapes.{IsWellFormed};
ghost use Rattle.plain_job.specs.Chain.{source_rows, table_at, together};
ghost use Rattle.plain_job.specs.Job.{stream};
ghost use Rattle.sorted_parts.specs.Spills.{spilled};
ghost use Rattle.sorted_parts.specs.steps.Dealt.{dealt};
ghost use Rattle.memory_run.specs.steps.Sections.{left_of};
ghost use Rattle.memory_run.specs.steps.Inputs.{FewInputs, all_given, given, with_first};

use crate::inputs::Input;
use crate::sections::{Sections, Spill};
use hal_base::{Functions, Memory, Origin, Parts, Records, Shape};
use sorted_parts::SpillBuilder;
use std::alloc::Global;

/// What stays the same in a round. The state is in splits, and so is each other source.
#[derive(Drop)]
pub(crate) struct RoundContext<'a> {
    pub(crate) shape: &'a Shape,
    pub(crate) tables: &'a [Records],
    pub(crate) round: u32,
    pub(crate) state: &'a [Records],
}

/// The spill of each source of a step. Those of the first are made already, where they are handed in.
pub(crate) fn spills_of<'a, F: Functions>(
    alloc: Global,
    functions: &F,
    context: &RoundContext,
    step: u32,
    made: Option<Sections>,
    before: Parts,
    inputs: &'a [Input],
) -> Result<Vec<Spill<'a>>, Memory>
    requires shape { IsWellFormed context.now.shape.now }
    requires few { FewInputs inputs.now }
    ensures { IfOk result (λ spills. map left_of spills.items ≡ all_given (F.meaning functions.now) context.now.shape.now.parts (source_rows context.now.tables.now context.now.round (together context.now.state.now) (together before)) context.now.round step 1 (with_first made inputs.now)) }
{
    let Some((first, others)) = inputs.split_first() else {
        return Ok(Vec::new(alloc));
    };
    // The first comes last, since it may be the one that uses up what stands before.
    let mut spills = spill_others(alloc, functions, context, step, before.as_slice(), others)?;
    let spill = match made {
        Some(sections) => sections.into_spill(),
        None => spill_first(alloc, functions, context, step, before, first)?,
    };
    spills.insert(0, spill)?;
    Ok(spills)
}

/// The spill of each source from the second on.
fn spill_others<'a, F: Functions>(
    alloc: Global,
    functions: &F,
    context: &RoundContext,
    step: u32,
    before: &[Records],
    others: &'a [Input],
) -> Result<Vec<Spill<'a>>, Memory>
    requires shape { IsWellFormed context.now.shape.now }
    requires few { length others.now ≤ 7 }
    ensures { IfOk result (λ spills. map left_of spills.items ≡ all_given (F.meaning functions.now) context.now.shape.now.parts (source_rows context.now.tables.now context.now.round (together context.now.state.now) (together before.now)) context.now.round step 2 others.now) }
{
    let mut spills = Vec::new(alloc);
    let mut number: u32 = 1;
    'sources: for input in others {
        number += 1;
        let spill = spill_source(alloc, functions, context, step, number, before, input)?;
        spills.push(spill)?;
    }
    Ok(spills)
}

/// The spill of the first source. Of what stands before, each part goes as soon as it is dealt, so
/// that it and its spill are not both whole in memory.
fn spill_first<'a, F: Functions>(
    alloc: Global,
    functions: &F,
    context: &RoundContext,
    step: u32,
    before: Parts,
    input: &'a Input,
) -> Result<Spill<'a>, Memory>
    requires { IsWellFormed context.now.shape.now }
    ensures { IfOk result (λ spill. left_of spill ≡ given (F.meaning functions.now) context.now.shape.now.parts (source_rows context.now.tables.now context.now.round (together context.now.state.now) (together before)) context.now.round step 1 input.now) }
{
    if let Input::Read(Origin::Prev) = input {
        let sections = spill_parts(alloc, functions, context, step, before)?;
        return Ok(sections.into_spill());
    }
    spill_source(alloc, functions, context, step, 1, before.as_slice(), input)
}

/// The spill of a source.
fn spill_source<'a, F: Functions>(
    alloc: Global,
    functions: &F,
    context: &RoundContext,
    step: u32,
    source: u32,
    before: &[Records],
    input: &'a Input,
) -> Result<Spill<'a>, Memory>
    requires { IsWellFormed context.now.shape.now }
    ensures { IfOk result (λ spill. left_of spill ≡ given (F.meaning functions.now) context.now.shape.now.parts (source_rows context.now.tables.now context.now.round (together context.now.state.now) (together before.now)) context.now.round step source input.now) }
{
    match input {
        Input::Kept(sections) => Ok(sections.lend()),
        Input::Read(from) => {
            let splits = splits_of(context, before, from);
            let sections = spill_splits(alloc, functions, context, step, source, splits)?;
            Ok(sections.into_spill())
        }
    }
}

/// The sections of a source that reads these splits.
fn spill_splits<F: Functions>(
    alloc: Global,
    functions: &F,
    context: &RoundContext,
    step: u32,
    source: u32,
    splits: &[Records],
) -> Result<Sections, Memory>
    requires { IsWellFormed context.now.shape.now }
    ensures { IfOk result (λ sections. sections ≡ spilled (F.meaning functions.now) context.now.round step source (together splits.now) context.now.shape.now.parts) }
{
    let parts = context.shape.parts;
    let mut builder = SpillBuilder::new(alloc, parts, share_of(splits, parts))?;
    'splits: for rows in splits {
        builder.add(alloc, functions, context.round, step, source, rows)?;
    }
    Sections::finished(alloc, builder)
}

/// The sections of a first source that reads what stands before.
fn spill_parts<F: Functions>(
    alloc: Global,
    functions: &F,
    context: &RoundContext,
    step: u32,
    before: Parts,
) -> Result<Sections, Memory>
    requires { IsWellFormed context.now.shape.now }
    ensures { IfOk result (λ sections. sections ≡ spilled (F.meaning functions.now) context.now.round step 1 (together before) context.now.shape.now.parts) }
{
    let parts = context.shape.parts;
    let mut builder = SpillBuilder::new(alloc, parts, share_of(before.as_slice(), parts))?;
    'parts: for rows in before.into_vec() {
        add_part(alloc, functions, context, step, rows, &mut builder)?;
    }
    Sections::finished(alloc, builder)
}

/// Adds what the map of the first source emits for a part, which then goes.
#[tactic(auto, using(crate::proofs::Splits::stream_same))]
fn add_part<F: Functions>(
    alloc: Global,
    functions: &F,
    context: &RoundContext,
    step: u32,
    rows: Records,
    builder: &mut SpillBuilder,
) -> Result<(), Memory>
    ensures { OnOk result (builder.new ≡ dealt (F.meaning functions.now) context.now.round step 0 builder.old (stream ((F.meaning functions.now).map context.now.round step 1) rows)) }
{
    // Then the part is the records themselves, and none of them is copied.
    if context.shape.parts == 1 && functions.map_is_same(step, 1) {
        return builder.add_rows(alloc, functions, context.round, step, rows);
    }
    builder.add(alloc, functions, context.round, step, 1, &rows)
}

/// How many records a part gets of these if all get as many.
fn share_of(splits: &[Records], parts: u32) -> usize
    requires { 1 ≤ parts }
{
    let mut count: usize = 0;
    'splits: for rows in splits {
        count = count.saturating_add(rows.len());
    }
    count / parts as usize
}

/// The splits that a source reads.
fn splits_of<'a>(context: &RoundContext<'a>, before: &'a [Records], from: &Origin) -> &'a [Records]
    ensures { together result.now ≡ source_rows context.now.tables.now context.now.round (together context.now.state.now) (together before.now) from.now }
{
    match from {
        Origin::State => context.state,
        Origin::Prev => before,
        Origin::Table { table, only: None } => table_splits(context.tables, *table),
        Origin::Table {
            table,
            only: Some(only),
        } => {
            if context.round == *only {
                table_splits(context.tables, *table)
            } else {
                &[]
            }
        }
    }
}

/// The table of this number as a split alone, or no split where there is no such table.
pub(crate) fn table_splits(tables: &[Records], number: u32) -> &[Records]
    ensures { together result.now ≡ table_at tables.now number }
{
    let at = number as usize;
    if at < tables.len() {
        &tables[at..at + 1]
    } else {
        &[]
    }
}
