ghost use Rattle.std.specs.Prelude.{◌≡◌, [], IfErr, IfOk, None};
ghost use Rattle.loop_program.specs.steps.Tells.{FaultIs, SaysFault, TablesRefuse};
ghost use Rattle.loop_program.specs.Types as types;
ghost use Rattle.loop_program.specs.Types.{AreRight, as_typed};

use hal_base::Memory;
use name_index::NameIndex;
use program_sketch::{
    Asked, ProgramFault, Sketch, StepSketches, StopSketch, TableSketch, TableSketches, What,
};
use program_tokens::{Ident, Number};
use std::alloc::Global;
use type_checker::{TypeFault, Typed, check};

/// A program in which no table has the name of another, and whose functions are checked.
#[derive(Drop)]
pub(crate) struct TypedSketch {
    pub(crate) name: Ident,
    pub(crate) parts: Number,
    pub(crate) rounds: Number,
    pub(crate) stop: StopSketch,
    pub(crate) asked: Asked,
    pub(crate) tables: TableSketches,
    pub(crate) functions: Typed,
    pub(crate) start: Ident,
    pub(crate) steps: StepSketches,
}

/// The same program, if no name and no kind in it is wrong: its tables come first, and then its functions in
/// their order. docs/LANGUAGE.md, "What is refused".
pub(crate) fn type_sketch(alloc: Global, sketch: Sketch) -> Result<TypedSketch, ProgramFault>
    ensures typed { IfOk result (λ typed. AreRight sketch × (typed ≡ as_typed sketch)) }
    ensures refused { IfErr result (FaultIs sketch) }
{
    tell_tables_apart(alloc, sketch.tables.as_slice())?;
    match check(alloc, sketch.functions) {
        Ok(functions) => Ok(TypedSketch {
            name: sketch.name,
            parts: sketch.parts,
            rounds: sketch.rounds,
            stop: sketch.stop,
            asked: sketch.asked,
            tables: sketch.tables,
            functions,
            start: sketch.start,
            steps: sketch.steps,
        }),
        Err(fault) => Err(said(fault)),
    }
}

/// No table has the name of another.
fn tell_tables_apart(alloc: Global, tables: &[TableSketch]) -> Result<(), ProgramFault>
    ensures apart { IfOk result (λ _. types.double_table [] tables.now ≡ None) }
    ensures refused { IfErr result (TablesRefuse tables.now) }
{
    match double_table(alloc, tables)? {
        Some(line) => Err(ProgramFault::At {
            line,
            what: What::DoubleName,
        }),
        None => Ok(()),
    }
}

/// The line of the first table whose name is that of a table before it.
fn double_table(alloc: Global, tables: &[TableSketch]) -> Result<Option<u64>, Memory>
    ensures { IfOk result (λ line. line ≡ types.double_table [] tables.now) }
{
    let mut names = NameIndex::new(alloc);
    'tables: for table in tables {
        if names.has(table.name.text.as_slice()) {
            return Ok(Some(table.name.line));
        }
        names.push(alloc, &table.name.text)?;
    }
    Ok(None)
}

/// What is said of a fault of functions: its line, and its word.
fn said(fault: TypeFault) -> ProgramFault
    ensures { SaysFault fault result }
{
    let (line, what) = match fault {
        TypeFault::WrongKind { line, .. } => (line, What::WrongKind),
        TypeFault::UnknownName { line, .. } => (line, What::UnknownName),
        TypeFault::WrongCount { line, .. } => (line, What::WrongCount),
        TypeFault::EmitMismatch { line, .. } => (line, What::EmitMismatch),
        TypeFault::DoubleName { line, .. } => (line, What::DoubleName),
        TypeFault::StreamMismatch { line, .. } => (line, What::StreamMismatch),
        TypeFault::Memory => return ProgramFault::Memory,
    };
    ProgramFault::At { line, what }
}
