//! The functions of an accepted program fit its shape.
#![tactic(auto)]

ghost use Rattle.std.specs.Prelude.{◌≡◌};
ghost use Rattle.hal_base.specs.Shapes.{IsWellFormed};
ghost use Rattle.plain_job.specs.Fit.{FunctionsFit};
ghost use Rattle.function_meaning.specs.Meanings.{meaning_of};
ghost use Rattle.program_fit.specs.Fit.{ProgramsFit};

use hal_base::Shape;
use loop_program::Program;
use type_checker::{Typed, Uses};

/// What runs a program: its own functions, the places that use them, and its shape.
#[derive(Drop)]
pub struct Runnable {
    pub typed: Typed,
    pub uses: Uses,
    pub shape: Shape,
}

impl Runnable {
    /// What runs an accepted program. Its shape is well formed, and its functions fit it.
    /// docs/SEMANTICS.md, "Schemas".
    pub fn new(program: Program) -> Runnable
        ensures functions { result.typed ≡ program.functions }
        ensures uses { result.uses ≡ program.uses }
        ensures shape { result.shape ≡ program.shape }
        ensures well_formed { IsWellFormed result.shape }
        ensures fits { FunctionsFit (meaning_of result.typed result.uses result.shape.parts) result.shape }
    {
        Runnable {
            typed: program.typed,
            uses: program.uses,
            shape: program.shape,
        }
    }
}

/// Whatever values of the kinds that its schemas name the functions of an accepted program are given, in any of its
/// rounds, they make records of the schemas that its shape names, and parts below its number of parts.
/// docs/SEMANTICS.md, "Schemas".
pub fn programs_fit()
    ensures { ProgramsFit }
{}
