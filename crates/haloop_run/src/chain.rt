ghost use Rattle.std.specs.Prelude.{IfOk};
ghost use Rattle.plain_job.specs.Ends.{IsPlainResult};
ghost use Rattle.plain_job.specs.Fit.{TablesFit};
ghost use Rattle.haloop_run.specs.Meanings.{meaning_of};

use function_eval::Evaluator;
use hal_base::{CopyIn, Memory, Tables};
use loop_program::Program;
use memory_run::chain_in_memory;
use plain_job::PlainResult;
use program_fit::Runnable;
use std::alloc::Global;

/// The chain of a program over its tables, in memory: what its last step leaves in its last round, which
/// that is, and how it ended. There are as many tables as the program's shape has schemas, each of
/// records of its own. docs/SEMANTICS.md, "The unrolled chain".
pub fn plain(alloc: Global, program: Program, tables: &Tables) -> Result<PlainResult, Memory>
    requires { TablesFit program.shape tables.now }
    ensures { IfOk result (IsPlainResult (meaning_of program) program.shape tables.now) }
{
    chain_of(alloc, program, tables.copy(alloc)?)
}

/// The same, where the tables are given up.
pub(crate) fn chain_of(
    alloc: Global,
    program: Program,
    tables: Tables,
) -> Result<PlainResult, Memory>
    requires { TablesFit program.shape tables }
    ensures { IfOk result (IsPlainResult (meaning_of program) program.shape tables) }
{
    let Runnable { typed, uses, shape } = Runnable::new(program);
    let functions = Evaluator::new(alloc, typed, uses, shape.parts)?;
    chain_in_memory(alloc, &functions, &shape, tables)
}
