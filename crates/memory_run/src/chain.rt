ghost use Rattle.std.specs.Prelude.{◌≡◌, List, length, IfOk};
ghost use Rattle.hal_base.specs.declared.record.Record.{Record as Row};
ghost use Rattle.hal_base.specs.Shapes.{IsWellFormed};
ghost use Rattle.plain_job.specs.Chain.{last_out, parts_from, together};
ghost use Rattle.plain_job.specs.Ends.{IsPlainResult};
ghost use Rattle.plain_job.specs.Fit.{FunctionsFit, TablesFit};
ghost use Rattle.memory_run.specs.steps.Sections as steps;
ghost use Rattle.memory_run.specs.steps.Inputs.{FewInEach, Serve};

use crate::distance::distance_of;
use crate::first::first_round;
use crate::inputs::StepInputs;
use crate::kept::plan_of;
use crate::round::round_out;
use crate::sources::RoundContext;
use fixpoint_test::{Next, decide};
use hal_base::{Functions, Memory, Parts, Records, Shape, Tables};
use plain_job::{End, PlainResult};
use std::alloc::Global;

/// The first round: the parts that it leaves, and the tables and inputs of the rounds after it.
#[derive(Drop)]
struct Begun {
    tables: Vec<Records>,
    plan: Vec<StepInputs>,
    parts: Parts,
}

/// The unrolled chain of a program, whose functions and tables fit its shape. What a source has in all rounds is
/// made once, a table that no source reads again is given up, and of the rounds only the last two are
/// kept.
/// docs/SEMANTICS.md, "The unrolled chain".
pub fn chain_in_memory<F: Functions>(
    alloc: Global,
    functions: &F,
    shape: &Shape,
    tables: Tables,
) -> Result<PlainResult, Memory>
    requires shape { IsWellFormed shape.now }
    requires fits { FunctionsFit (F.meaning functions.now) shape.now }
    requires tables { TablesFit shape.now tables }
    ensures { IfOk result (IsPlainResult (F.meaning functions.now) shape.now tables) }
{
    let Begun {
        tables: left,
        plan,
        mut parts,
    } = begin(alloc, functions, shape, tables)?;
    let mut round = 1;
    let mut next = decide(1, None, shape.threshold, shape.exact, shape.rounds);
    'rounds: loop {
        if let Some(end) = end_of(next) {
            return Ok(PlainResult {
                parts,
                rounds: round,
                end,
            });
        }
        round += 1;
        let out = later_round(alloc, functions, shape, &left, &plan, round, &parts)?;
        let far = distance_of(alloc, functions, shape, &parts, &out)?;
        next = decide(round, Some(far), shape.threshold, shape.exact, shape.rounds);
        parts = out;
    }
}

/// Makes what is kept over the rounds, and does the first.
fn begin<F: Functions>(
    alloc: Global,
    functions: &F,
    shape: &Shape,
    tables: Tables,
) -> Result<Begun, Memory>
    requires shape { IsWellFormed shape.now }
    ensures few { IfOk result (λ it. FewInEach it.plan.items) }
    ensures serve { IfOk result (λ it. Serve (F.meaning functions.now) shape.now tables it.tables.items it.plan.items) }
    ensures parts { IfOk result (λ it. it.parts ≡ last_out (F.meaning functions.now) shape.now tables 1) }
{
    let mut tables = tables.into_vec();
    let left = tables.as_mut_slice();
    let plan = plan_of(alloc, functions, shape, left)?;
    let parts = first_round(alloc, functions, shape, &plan, left)?;
    Ok(Begun {
        tables,
        plan,
        parts,
    })
}

/// The parts that the last step leaves in a round after the first, whose state is what it left before.
fn later_round<F: Functions>(
    alloc: Global,
    functions: &F,
    shape: &Shape,
    tables: &[Records],
    plan: &[StepInputs],
    round: u32,
    before: &Parts,
) -> Result<Parts, Memory>
    requires shape { IsWellFormed shape.now }
    requires few { FewInEach plan.now }
    ensures { IfOk result (λ out. (real : List (List Row)) → Serve (F.meaning functions.now) shape.now real tables.now plan.now → out ≡ parts_from (F.meaning functions.now) shape.now real round (together before.now) (length shape.now.steps)) }
{
    let context = RoundContext {
        shape,
        tables,
        round,
        state: before.as_slice(),
    };
    round_out(alloc, functions, &context, None, plan)
}

/// The end of a chain. `None` where there is another round.
fn end_of(next: Next) -> Option<End>
    ensures { result ≡ steps.end_of next }
{
    match next {
        Next::Again => None,
        Next::Fixpoint => Some(End::Fixpoint),
        Next::Close => Some(End::Close),
        Next::Limit => Some(End::Limit),
    }
}
