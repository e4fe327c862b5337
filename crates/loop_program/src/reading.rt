ghost use Rattle.std.specs.List.{AllByRecursion};
ghost use Rattle.std.specs.Prelude.{◌≡◌, ◌≤◌, IfErr, IfOk, length, map};
ghost use Rattle.hal_base.specs.Shapes.{HasFewSources};
ghost use Rattle.program_sketch.specs.declared.sketch.TableSketch.{TableSketch as Written};
ghost use Rattle.function_language.specs.Spelled.{CanBeSpelled};
ghost use Rattle.type_checker.specs.Functions.{AreTyped};
ghost use Rattle.loop_program.specs.Caches.{cached};
ghost use Rattle.loop_program.specs.Programs as spec;
ghost use Rattle.loop_program.specs.Programs.{IsJustProgram, IsRefusedBy};
ghost use Rattle.loop_program.specs.Rules.{KeepsRules};
ghost use Rattle.loop_program.specs.Schemas as schemas;
ghost use Rattle.loop_program.specs.steps.Tells.{Tells, TellsParts, with_parts};

use crate::caches::{is_had, output_verdict, steps_with_caches};
use crate::limits::limits;
use crate::places::{NamedStep, Places, count_of, find_places};
use crate::program::{Names, Program};
use crate::schemas::{distance_takes, mismatch, same_schema, steps_typed, table_schemas};
use crate::typing::{TypedSketch, type_sketch};
use hal_base::{CopyIn, Counts, Memory, Schema, Schemas, Shape, Step, Steps};
use program_sketch::{ProgramFault, StopSketch, TableSketch, parse_program};
use std::alloc::Global;
use type_checker::{UseMaps, UseStep, UseSteps, Uses};

/// The program whose text this is. The text is refused for the first of six passes that finds a fault: its
/// length, its syntax, its names and kinds, its limits, the names in its steps, and the schemas of its steps.
/// docs/LANGUAGE.md, "What is refused". Its shape has the caches that no word refuses: docs/LANGUAGE.md, "Caches".
pub fn read_program(alloc: Global, text: &[u8]) -> Result<Program, ProgramFault>
    ensures read { IfOk result (IsJustProgram text.now) }
    ensures kept { IfOk result KeepsRules }
    ensures refused { IfErr result (IsRefusedBy text.now) }
{
    let sketch = parse_program(alloc, text)?;
    let typed = type_sketch(alloc, sketch)?;
    accept(alloc, typed)
}

/// What the passes behind the kinds make of a program. The rest of it is as it was written.
#[derive(Drop)]
pub(crate) struct Parts {
    pub(crate) uses: Uses,
    pub(crate) shape: Shape,
    pub(crate) names: Names,
    pub(crate) files: Names,
}

/// The program, where its limits, the names in its steps and their schemas are right.
fn accept(alloc: Global, sketch: TypedSketch) -> Result<Program, ProgramFault>
    requires typed { AreTyped sketch.functions }
    requires spelled { CanBeSpelled sketch.functions }
    requires steps { 1 ≤ length sketch.steps }
    ensures found { Tells (spec.accepted sketch) result }
    ensures kept { IfOk result KeepsRules }
{
    let parts = find_parts(alloc, &sketch)?;
    Ok(Program {
        typed: sketch.functions,
        uses: parts.uses,
        shape: parts.shape,
        names: parts.names,
        files: parts.files,
        asked: sketch.asked,
    })
}

/// What its limits, the names in its steps and their schemas make of a program.
fn find_parts(alloc: Global, sketch: &TypedSketch) -> Result<Parts, ProgramFault>
    ensures { TellsParts sketch.now result }
{
    limits(sketch)?;
    let found = find_places(alloc, sketch)?;
    let tables = table_schemas(alloc, sketch.tables.as_slice())?;
    let steps = typed_steps(alloc, sketch, &found, tables.as_slice())?;
    Ok(parts_of(alloc, sketch, &found, tables, steps)?)
}

/// The steps with their schemas; the last output is of the schema of the start table, and so are the groups
/// that the distance takes.
fn typed_steps(
    alloc: Global,
    sketch: &TypedSketch,
    found: &Places,
    tables: &[Schema],
) -> Result<Steps, ProgramFault>
    ensures { Tells (spec.schemas sketch.now found.now tables.now) result }
{
    let functions = sketch.functions.tree().as_slice();
    let Some(state) = tables.get(found.start as usize) else {
        return Err(mismatch(sketch.start.line));
    };
    let steps = steps_typed(alloc, functions, tables, state, found.steps.as_slice())?;
    if !same_schema(last_schema(state, steps.as_slice()), state) {
        return Err(mismatch(last_line(found.steps.as_slice())));
    }
    if !distance_takes(functions, found.distance.what, state) {
        return Err(mismatch(found.distance.line));
    }
    Ok(steps)
}

/// What the last step makes, or what stood before.
fn last_schema<'a>(before: &'a Schema, steps: &'a [Step]) -> &'a Schema
    ensures { result.now ≡ schemas.last_schema before.now steps.now }
{
    match steps.last() {
        Some(step) => &step.out,
        None => before,
    }
}

/// The line of the last step's reduce.
fn last_line(steps: &[NamedStep]) -> u64
    ensures { result ≡ schemas.last_line 0 steps.now }
{
    match steps.last() {
        Some(step) => step.reduce.line,
        None => 0,
    }
}

/// The parts of a program with these places and schemas, and with its caches.
fn parts_of(
    alloc: Global,
    sketch: &TypedSketch,
    found: &Places,
    tables: Schemas,
    steps: Steps,
) -> Result<Parts, Memory>
    requires few_steps { length steps ≤ 8 }
    requires few_sources { AllByRecursion HasFewSources steps }
    ensures { IfOk result (λ parts. with_parts sketch.now parts ≡ cached (spec.whole sketch.now found.now tables steps)) }
{
    let names = names_of(alloc, sketch.tables.as_slice())?;
    let files = files_of(alloc, sketch.tables.as_slice())?;
    let uses = uses_of(alloc, found)?;
    let functions = &sketch.functions;
    let output = output_verdict(functions, &uses, sketch.asked, steps.len() as u32);
    let steps = steps_with_caches(alloc, functions, &uses, sketch.asked, steps)?;
    Ok(Parts {
        uses,
        shape: shape_of(alloc, sketch, found.start, tables, steps, is_had(output)),
        names,
        files,
    })
}

/// The shape of these steps. Its start is the table of this number, and its state has the reducer output cache or not.
fn shape_of(
    alloc: Global,
    sketch: &TypedSketch,
    start: u32,
    tables: Schemas,
    steps: Steps,
    output: bool,
) -> Shape
    ensures { result ≡ spec.shape_of sketch.now start tables steps output }
{
    Shape {
        parts: count_of(sketch.parts.value),
        rounds: count_of(sketch.rounds.value),
        exact: is_exact(&sketch.stop),
        threshold: threshold_of(&sketch.stop),
        start,
        tables,
        blocks: Counts::new(alloc),
        steps,
        reducer_output: output,
    }
}

fn is_exact(stop: &StopSketch) -> bool
    ensures { result ≡ spec.is_exact stop.now }
{
    match stop {
        StopSketch::Exact => true,
        StopSketch::Below { .. } => false,
    }
}

/// The distance below which the program stops.
fn threshold_of(stop: &StopSketch) -> u64
    ensures { result ≡ spec.threshold_of stop.now }
{
    match stop {
        StopSketch::Exact => 1,
        StopSketch::Below { threshold, .. } => u64::try_from(threshold.value).unwrap_or(0),
    }
}

fn names_of(alloc: Global, tables: &[TableSketch]) -> Result<Names, Memory>
    ensures { IfOk result (λ names. names ≡ map (λ (table : Written). table.name.text) tables.now) }
{
    let mut names = Names::new(alloc);
    'tables: for table in tables {
        names.push(table.name.text.copy(alloc)?)?;
    }
    Ok(names)
}

fn files_of(alloc: Global, tables: &[TableSketch]) -> Result<Names, Memory>
    ensures { IfOk result (λ files. files ≡ map (λ (table : Written). table.file) tables.now) }
{
    let mut files = Names::new(alloc);
    'tables: for table in tables {
        files.push(table.file.copy(alloc)?)?;
    }
    Ok(files)
}

/// The functions that each step uses, and the distance.
fn uses_of(alloc: Global, found: &Places) -> Result<Uses, Memory>
    ensures { IfOk result (λ uses. uses ≡ spec.uses_of found.now) }
{
    let mut steps = UseSteps::new(alloc);
    'steps: for step in found.steps.as_slice() {
        steps.push(step_uses(alloc, step)?)?;
    }
    Ok(Uses {
        steps,
        distance: found.distance.what,
    })
}

fn step_uses(alloc: Global, step: &NamedStep) -> Result<UseStep, Memory>
    ensures { IfOk result (λ uses. uses ≡ spec.step_uses step.now) }
{
    let mut maps = UseMaps::new(alloc);
    'sources: for source in step.sources.as_slice() {
        maps.push(source.map.what)?;
    }
    Ok(UseStep {
        maps,
        reduce: step.reduce.what,
        partition: step.partition.what,
    })
}
