ghost use Rattle.std.specs.Prelude.{◌≡◌, ℕ, true, List, None, IfOk, OnOk};
ghost use Rattle.hal_base.specs.Shapes.{IsWellFormed, MayBeKept};
ghost use Rattle.hal_base.specs.declared.record.Record.{Record as Row};
ghost use Rattle.hal_base.specs.declared.shape.Origin.{Origin as Place};
ghost use Rattle.hal_base.specs.declared.shape.Origin.TheVariants as origin;
ghost use Rattle.hal_base.specs.declared.shape.Source.{Source};
ghost use Rattle.plain_job.specs.Chain.{table_at};
ghost use Rattle.sorted_parts.specs.Spills.{spilled};
ghost use Rattle.memory_run.specs.declared.inputs.Input.TheVariants as given;
ghost use Rattle.memory_run.specs.steps.Inputs.{FewInEach, FewInputs, Serve, ServeStep, Serves};

use crate::inputs::{Input, StepInputs, all_read};
use crate::release::release;
use crate::sections::Sections;
use hal_base::{Functions, Memory, Origin, Records, Shape};
use sorted_parts::spill;
use std::alloc::Global;

/// A table of a program, with its number.
#[derive(Drop)]
struct Numbered<'a> {
    shape: &'a Shape,
    number: u32,
    rows: &'a Records,
}

/// What each source of each step is given in all rounds. A table that no source reads again is given
/// up, but for the start table.
pub(crate) fn plan_of<F: Functions>(
    alloc: Global,
    functions: &F,
    shape: &Shape,
    tables: &mut [Records],
) -> Result<Vec<StepInputs>, Memory>
    requires shape { IsWellFormed shape.now }
    ensures few { IfOk result (λ plan. FewInEach plan.items) }
    ensures serve { IfOk result (λ plan. Serve (F.meaning functions.now) shape.now tables.old tables.new plan.items) }
    ensures start { OnOk result (table_at tables.new shape.now.start ≡ table_at tables.old shape.now.start) }
{
    let mut plan = all_read(alloc, shape)?;
    keep_tables(alloc, functions, shape, tables, &mut plan)?;
    Ok(plan)
}

/// Keeps the sections of each source that has the same ones in all rounds, table after table, so that
/// a table can go before the sections of the next are made.
fn keep_tables<F: Functions>(
    alloc: Global,
    functions: &F,
    shape: &Shape,
    tables: &mut [Records],
    plan: &mut [StepInputs],
) -> Result<(), Memory>
    requires shape { IsWellFormed shape.now }
    requires few { FewInEach plan.old }
    ensures few { OnOk result (FewInEach plan.new) }
    ensures serve { OnOk result ((real : List (List Row)) → Serve (F.meaning functions.now) shape.now real tables.old plan.old → Serve (F.meaning functions.now) shape.now real tables.new plan.new) }
    ensures start { OnOk result (table_at tables.new shape.now.start ≡ table_at tables.old shape.now.start) }
{
    let count = tables.len().min(u32::MAX as usize) as u32;
    'tables: for number in 0..count {
        keep_table(alloc, functions, shape, number, tables, plan)?;
    }
    Ok(())
}

/// Keeps the sections of the sources of a table, which then goes where it is not read again.
fn keep_table<F: Functions>(
    alloc: Global,
    functions: &F,
    shape: &Shape,
    number: u32,
    tables: &mut [Records],
    plan: &mut [StepInputs],
) -> Result<(), Memory>
    requires shape { IsWellFormed shape.now }
    requires few { FewInEach plan.old }
    ensures few { OnOk result (FewInEach plan.new) }
    ensures serve { OnOk result ((real : List (List Row)) → Serve (F.meaning functions.now) shape.now real tables.old plan.old → Serve (F.meaning functions.now) shape.now real tables.new plan.new) }
    ensures start { OnOk result (table_at tables.new shape.now.start ≡ table_at tables.old shape.now.start) }
{
    keep_sections(alloc, functions, shape, number, tables, plan)?;
    // The first round has yet to read the start table as its state.
    if number != shape.start {
        release(alloc, number, tables, plan);
    }
    Ok(())
}

/// Keeps the sections of the sources of the table of this number, where there is one.
fn keep_sections<F: Functions>(
    alloc: Global,
    functions: &F,
    shape: &Shape,
    number: u32,
    tables: &[Records],
    plan: &mut [StepInputs],
) -> Result<(), Memory>
    requires shape { IsWellFormed shape.now }
    requires few { FewInEach plan.old }
    ensures few { OnOk result (FewInEach plan.new) }
    ensures serve { OnOk result ((real : List (List Row)) → Serve (F.meaning functions.now) shape.now real tables.now plan.old → Serve (F.meaning functions.now) shape.now real tables.now plan.new) }
{
    let Some(rows) = tables.get(number as usize) else {
        return Ok(());
    };
    let table = Numbered {
        shape,
        number,
        rows,
    };
    keep_in_steps(alloc, functions, &table, plan)
}

/// Keeps the sections of the sources of a table in each step.
fn keep_in_steps<F: Functions>(
    alloc: Global,
    functions: &F,
    table: &Numbered,
    plan: &mut [StepInputs],
) -> Result<(), Memory>
    requires shape { IsWellFormed table.now.shape.now }
    requires few { FewInEach plan.old }
    ensures few { OnOk result (FewInEach plan.new) }
    ensures serve { OnOk result ((real left : List (List Row)) → table.now.rows.now ≡ table_at left table.now.number → Serve (F.meaning functions.now) table.now.shape.now real left plan.old → Serve (F.meaning functions.now) table.now.shape.now real left plan.new) }
{
    let mut step: u32 = 0;
    'steps: while (step as usize) < plan.len() {
        let inputs = &mut plan[step as usize];
        step += 1;
        keep_in_step(alloc, functions, table, step, &mut inputs.all)?;
    }
    Ok(())
}

/// Keeps the sections of the sources of a table in a step.
fn keep_in_step<F: Functions>(
    alloc: Global,
    functions: &F,
    table: &Numbered,
    step: u32,
    inputs: &mut [Input],
) -> Result<(), Memory>
    requires shape { IsWellFormed table.now.shape.now }
    requires few { FewInputs inputs.old }
    ensures few { OnOk result (FewInputs inputs.new) }
    ensures serve { OnOk result ((rows left : Place → List Row) (i : ℕ) (sources : List Source) → table.now.rows.now ≡ left (origin.Table table.now.number None)
        → ServeStep (F.meaning functions.now) table.now.shape.now.parts rows left i step sources inputs.old
        → ServeStep (F.meaning functions.now) table.now.shape.now.parts rows left i step sources inputs.new) }
{
    let mut source: u32 = 0;
    'sources: while (source as usize) < inputs.len() {
        let input = &mut inputs[source as usize];
        source += 1;
        keep_source(alloc, functions, table, step, source, input)?;
    }
    Ok(())
}

/// Keeps the sections of a source that reads the table and has the same ones in all rounds.
fn keep_source<F: Functions>(
    alloc: Global,
    functions: &F,
    table: &Numbered,
    step: u32,
    source: u32,
    input: &mut Input,
) -> Result<(), Memory>
    requires shape { IsWellFormed table.now.shape.now }
    ensures { OnOk result ((rows left : Place → List Row) (i : ℕ) (from : Source) → table.now.rows.now ≡ left (origin.Table table.now.number None)
        → Serves (F.meaning functions.now) table.now.shape.now.parts rows left i step source from input.old
        → Serves (F.meaning functions.now) table.now.shape.now.parts rows left i step source from input.new) }
{
    if is_kept(functions, table.number, step, source, input) {
        let sections = table_sections(alloc, functions, table, step, source)?;
        *input = Input::Kept(sections);
    }
    Ok(())
}

/// Whether a source reads a table in each round, and by a map and into parts that are the same in each.
fn is_kept<F: Functions>(functions: &F, number: u32, step: u32, source: u32, input: &Input) -> bool
    ensures { result ≡ true → (input.now ≡ given.Read (origin.Table number None)) × MayBeKept (origin.Table number None) ((F.meaning functions.now).map_uses_round step source) ((F.meaning functions.now).partition_uses_round step) }
{
    reads_always(number, input)
        && !functions.map_uses_round(step, source)
        && !functions.partition_uses_round(step)
}

fn reads_always(number: u32, it: &Input) -> bool
    ensures { result ≡ true → it.now ≡ given.Read (origin.Table number None) }
{
    match it {
        Input::Read(Origin::Table { table, only: None }) => *table == number,
        _ => false,
    }
}

/// The sections that a source makes of the table in the first round.
fn table_sections<F: Functions>(
    alloc: Global,
    functions: &F,
    table: &Numbered,
    step: u32,
    source: u32,
) -> Result<Sections, Memory>
    requires shape { IsWellFormed table.now.shape.now }
    ensures { IfOk result (λ sections. sections ≡ spilled (F.meaning functions.now) 1 step source table.now.rows.now table.now.shape.now.parts) }
{
    let parts = spill(
        alloc,
        functions,
        1,
        step,
        source,
        table.rows,
        table.shape.parts,
    )?;
    Ok(Sections::new(parts))
}
