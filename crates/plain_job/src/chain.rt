ghost use Rattle.std.specs.Prelude.{◌≡◌, ◌<◌, ◌≤◌, IfOk, MatchBool};
ghost use Rattle.hal_base.specs.Shapes.{IsWellFormed};
ghost use Rattle.plain_job.specs.Distances.{distance};
ghost use Rattle.plain_job.specs.Ends.{IsPlainResult};
ghost use Rattle.plain_job.specs.steps.Rounds.{end_by};

use crate::distance::distance_of;
use crate::ending::{End, PlainResult};
use crate::round::{round_out, table_at, together};
use hal_base::{Functions, Memory, Records, Shape, Tables};
use std::alloc::Global;

/// The unrolled chain of plain jobs. docs/SEMANTICS.md, "The unrolled chain".
pub fn plain_chain<F: Functions>(
    alloc: Global,
    functions: &F,
    shape: &Shape,
    tables: &Tables,
) -> Result<PlainResult, Memory>
    requires { IsWellFormed shape.now }
    ensures { IfOk result (IsPlainResult (F.meaning functions.now) shape.now tables.now) }
{
    let rounds = shape.rounds;
    let mut state = table_at(alloc, tables, shape.start)?;
    let mut round = 1;
    'rounds: loop {
        let parts = round_out(alloc, functions, shape, tables, round, &state)?;
        let left = together(alloc, &parts)?;
        let near = is_near(alloc, functions, shape, round, &state, &left)?;
        if near || round == rounds {
            let end = end_of(near, shape.exact);
            return Ok(PlainResult {
                parts,
                rounds: round,
                end,
            });
        }
        state = left;
        round += 1;
    }
}

/// Whether the chain ends with this round because its output is near that of the round before. Only
/// from the second round on is there one to compare with.
fn is_near<F: Functions>(
    alloc: Global,
    functions: &F,
    shape: &Shape,
    round: u32,
    old: &Records,
    new: &Records,
) -> Result<bool, Memory>
    ensures { let far = distance (F.meaning functions.now) shape.now old.now new.now in
        IfOk result (λ near. MatchBool near ((2 ≤ round) × (far < shape.now.threshold)) (2 ≤ round → shape.now.threshold ≤ far)) }
{
    if round < 2 {
        return Ok(false);
    }
    Ok(distance_of(alloc, functions, shape, old, new)? < shape.threshold)
}

fn end_of(near: bool, exact: bool) -> End
    ensures { result ≡ end_by near exact }
{
    match (near, exact) {
        (true, true) => End::Fixpoint,
        (true, false) => End::Close,
        (false, _) => End::Limit,
    }
}
