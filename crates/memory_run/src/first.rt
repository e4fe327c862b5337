ghost use Rattle.std.specs.Prelude.{◌≡◌, true, List, length, IfOk, OnOk};
ghost use Rattle.hal_base.specs.Shapes.{IsWellFormed};
ghost use Rattle.hal_base.specs.declared.record.Record.{Record as Row};
ghost use Rattle.plain_job.specs.Chain.{parts_from, table_at};
ghost use Rattle.sorted_parts.specs.Spills.{spilled};
ghost use Rattle.memory_run.specs.steps.Inputs.{FewInEach, Serve, ReadsStateOnce};

use crate::inputs::{StepInputs, any_reads, is_read};
use crate::release::{release, take_table};
use crate::round::round_out;
use crate::sections::Sections;
use crate::sources::{RoundContext, table_splits};
use hal_base::{Functions, Memory, Origin, Parts, Records, Shape};
use sorted_parts::spill;
use std::alloc::Global;

/// The parts that the last step leaves in the first round, whose state is the start table. The table
/// then goes, unless a source is to read it again.
pub(crate) fn first_round<F: Functions>(
    alloc: Global,
    functions: &F,
    shape: &Shape,
    plan: &[StepInputs],
    tables: &mut [Records],
) -> Result<Parts, Memory>
    requires shape { IsWellFormed shape.now }
    requires few { FewInEach plan.now }
    ensures out { IfOk result (λ out. (real : List (List Row)) → Serve (F.meaning functions.now) shape.now real tables.old plan.now → out ≡ parts_from (F.meaning functions.now) shape.now real 1 (table_at tables.old shape.now.start) (length shape.now.steps)) }
    ensures serve { OnOk result ((real : List (List Row)) → Serve (F.meaning functions.now) shape.now real tables.old plan.now → Serve (F.meaning functions.now) shape.now real tables.new plan.now) }
{
    if reads_state_once(shape.start, plan) {
        return round_that_takes(alloc, functions, shape, plan, tables);
    }
    let out = round_over(alloc, functions, shape, plan, tables)?;
    release(alloc, shape.start, tables, plan);
    Ok(out)
}

/// Whether the start table is read once, as the state and by the first source of all.
fn reads_state_once(start: u32, plan: &[StepInputs]) -> bool
    ensures { result ≡ true → ReadsStateOnce start plan.now }
{
    let Some((step, later)) = plan.split_first() else {
        return false;
    };
    let Some((first, others)) = step.as_slice().split_first() else {
        return false;
    };
    let table = Origin::Table {
        table: start,
        only: None,
    };
    first.reads_state()
        && !any_reads(&Origin::State, others)
        && !is_read(&Origin::State, later)
        && !is_read(&table, plan)
}

/// The first round, where the start table goes as soon as it is mapped.
fn round_that_takes<F: Functions>(
    alloc: Global,
    functions: &F,
    shape: &Shape,
    plan: &[StepInputs],
    tables: &mut [Records],
) -> Result<Parts, Memory>
    requires shape { IsWellFormed shape.now }
    requires few { FewInEach plan.now }
    requires once { ReadsStateOnce shape.now.start plan.now }
    ensures out { IfOk result (λ out. (real : List (List Row)) → Serve (F.meaning functions.now) shape.now real tables.old plan.now → out ≡ parts_from (F.meaning functions.now) shape.now real 1 (table_at tables.old shape.now.start) (length shape.now.steps)) }
    ensures serve { OnOk result ((real : List (List Row)) → Serve (F.meaning functions.now) shape.now real tables.old plan.now → Serve (F.meaning functions.now) shape.now real tables.new plan.now) }
{
    let start = take_table(alloc, shape.start, tables);
    let sections = start_sections(alloc, functions, shape, start)?;
    let context = RoundContext {
        shape,
        tables,
        round: 1,
        state: &[],
    };
    round_out(alloc, functions, &context, Some(sections), plan)
}

/// The sections of the first source where it reads the start table, which then goes.
fn start_sections<F: Functions>(
    alloc: Global,
    functions: &F,
    shape: &Shape,
    start: Records,
) -> Result<Sections, Memory>
    requires shape { IsWellFormed shape.now }
    ensures { IfOk result (λ sections. sections ≡ spilled (F.meaning functions.now) 1 1 1 start shape.now.parts) }
{
    let parts = spill(alloc, functions, 1, 1, 1, &start, shape.parts)?;
    Ok(Sections::new(parts))
}

/// The first round over the start table where it stands.
fn round_over<F: Functions>(
    alloc: Global,
    functions: &F,
    shape: &Shape,
    plan: &[StepInputs],
    tables: &[Records],
) -> Result<Parts, Memory>
    requires shape { IsWellFormed shape.now }
    requires few { FewInEach plan.now }
    ensures { IfOk result (λ out. (real : List (List Row)) → Serve (F.meaning functions.now) shape.now real tables.now plan.now → out ≡ parts_from (F.meaning functions.now) shape.now real 1 (table_at tables.now shape.now.start) (length shape.now.steps)) }
{
    let context = RoundContext {
        shape,
        tables,
        round: 1,
        state: table_splits(tables, shape.start),
    };
    round_out(alloc, functions, &context, None, plan)
}
