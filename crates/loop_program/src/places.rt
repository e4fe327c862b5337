ghost use Rattle.std.specs.List.{position};
ghost use Rattle.std.specs.Prelude.{◌≡◌, ◌∷◌, IfOk, Ok};
ghost use Rattle.std.specs.Str.{bytes_eq};
ghost use Rattle.program_sketch.specs.declared.sketch.TableSketch.{TableSketch as Table};
ghost use Rattle.hal_base.specs.declared.shape.Origin.TheVariants as origin;
ghost use Rattle.type_checker.specs.Functions as functions;
ghost use Rattle.loop_program.specs.Found.{each};
ghost use Rattle.loop_program.specs.Places as spec;
ghost use Rattle.loop_program.specs.steps.Tells.{Tells};

use crate::typing::TypedSketch;
use function_language::Function;
use hal_base::{Items, Memory, Origin};
use program_sketch::{InputSketch, ProgramFault, StepSketch, StopSketch, TableSketch, What};
use program_tokens::{Ident, Number};
use std::alloc::Global;
use type_checker::Use;

/// What a name stands for, and the line in which it stands.
#[derive(Clone, Copy)]
pub(crate) struct Named {
    pub(crate) what: Use,
    pub(crate) line: u64,
}

/// Where a source takes its records from, and its map.
#[derive(Drop)]
pub(crate) struct NamedSource {
    pub(crate) from: Origin,
    pub(crate) map: Named,
}

/// The sources of a step, its reduce and its partition.
#[derive(Drop)]
pub(crate) struct NamedStep {
    pub(crate) sources: Items<NamedSource>,
    pub(crate) reduce: Named,
    pub(crate) partition: Named,
}

/// What all names in the steps of a program stand for. Tables count from 0.
#[derive(Drop)]
pub(crate) struct Places {
    pub(crate) start: u32,
    pub(crate) steps: Items<NamedStep>,
    pub(crate) distance: Named,
}

/// The sorts of functions.
#[derive(Clone, Copy)]
enum Sort {
    Map,
    Reduce,
    Distance,
    Partition,
}

/// What the names in the steps of a program stand for, or the first that stands for nothing there.
/// docs/LANGUAGE.md, "What is refused".
pub(crate) fn find_places(alloc: Global, sketch: &TypedSketch) -> Result<Places, ProgramFault>
    ensures { Tells (spec.places sketch.now) result }
{
    let functions = sketch.functions.tree().as_slice();
    let tables = sketch.tables.as_slice();
    let distance = distance_named(functions, &sketch.stop)?;
    let start = table_named(tables, &sketch.start)?;
    let steps = steps_named(alloc, tables, functions, sketch.steps.as_slice())?;
    Ok(Places {
        start,
        steps,
        distance,
    })
}

/// The first step reads the state, each other the output before.
fn steps_named(
    alloc: Global,
    tables: &[TableSketch],
    functions: &[Function],
    steps: &[StepSketch],
) -> Result<Items<NamedStep>, ProgramFault>
    ensures { Tells (spec.steps_named tables.now functions.now steps.now) result }
{
    let [first, others @ ..] = steps else {
        return Ok(Items::new(alloc));
    };
    let step = step_named(alloc, tables, functions, Origin::State, first)?;
    let later = later_named(alloc, tables, functions, others)?;
    Ok(joined(alloc, step, later)?)
}

/// An item in front of others.
fn joined<T: Drop>(alloc: Global, first: T, mut others: Items<T>) -> Result<Items<T>, Memory>
    ensures { IfOk result (λ items. items ≡ first ∷ others) }
{
    let mut items = Items::new(alloc);
    items.push(first)?;
    items.append(&mut others)?;
    Ok(items)
}

fn later_named(
    alloc: Global,
    tables: &[TableSketch],
    functions: &[Function],
    steps: &[StepSketch],
) -> Result<Items<NamedStep>, ProgramFault>
    ensures { Tells (each (spec.step_named tables.now functions.now origin.Prev) steps.now) result }
{
    let mut named = Items::new(alloc);
    'steps: for step in steps {
        named.push(step_named(alloc, tables, functions, Origin::Prev, step)?)?;
    }
    Ok(named)
}

/// A step, whose first source is this.
fn step_named(
    alloc: Global,
    tables: &[TableSketch],
    functions: &[Function],
    from: Origin,
    step: &StepSketch,
) -> Result<NamedStep, ProgramFault>
    ensures { Tells (spec.step_named tables.now functions.now from step.now) result }
{
    let map = map_named(functions, &step.map)?;
    let inputs = inputs_named(alloc, tables, functions, step.inputs.as_slice())?;
    let reduce = reduce_named(functions, &step.reduce)?;
    let partition = partition_named(functions, step.line, &step.partition)?;
    let sources = joined(alloc, NamedSource { from, map }, inputs)?;
    Ok(NamedStep {
        sources,
        reduce,
        partition,
    })
}

fn inputs_named(
    alloc: Global,
    tables: &[TableSketch],
    functions: &[Function],
    inputs: &[InputSketch],
) -> Result<Items<NamedSource>, ProgramFault>
    ensures { Tells (each (spec.input_named tables.now functions.now) inputs.now) result }
{
    let mut named = Items::new(alloc);
    'inputs: for input in inputs {
        named.push(input_named(tables, functions, input)?)?;
    }
    Ok(named)
}

/// A table that a step reads.
fn input_named(
    tables: &[TableSketch],
    functions: &[Function],
    input: &InputSketch,
) -> Result<NamedSource, ProgramFault>
    ensures { Tells (spec.input_named tables.now functions.now input.now) result }
{
    let table = table_named(tables, &input.table)?;
    let map = map_named(functions, &input.map)?;
    let only = only_of(&input.only);
    Ok(NamedSource {
        from: Origin::Table { table, only },
        map,
    })
}

fn only_of(only: &Option<Number>) -> Option<u32>
    ensures { result ≡ spec.only_of only.now }
{
    match only {
        Some(number) => Some(count_of(number.value)),
        None => None,
    }
}

/// A number as a count of 32 bits. The limits keep each count well below their end.
pub(crate) fn count_of(value: i64) -> u32
    ensures { result ≡ spec.count_of value }
{
    if value < 0 {
        return 0;
    }
    u32::try_from(value).unwrap_or(u32::MAX)
}

/// The number of the table of this name.
fn table_named(tables: &[TableSketch], ident: &Ident) -> Result<u32, ProgramFault>
    ensures { Tells (spec.table_named tables.now ident.now) result }
{
    match place_of(ident.text.as_slice(), tables) {
        Some(place) => number_of(place),
        None => Err(ProgramFault::At {
            line: ident.line,
            what: What::UnknownTable,
        }),
    }
}

fn place_of(name: &[u8], tables: &[TableSketch]) -> Option<usize>
    ensures { result ≡ position (λ (table : Table). bytes_eq name.now table.name.text) tables.now }
{
    tables
        .iter()
        .position(|table| name == table.name.text.as_slice())
}

/// The number of a place. No memory holds more tables or functions than a number counts.
fn number_of(place: usize) -> Result<u32, ProgramFault>
    ensures { Tells (Ok place) result }
{
    u32::try_from(place).map_err(|_| ProgramFault::Memory)
}

fn map_named(functions: &[Function], ident: &Ident) -> Result<Named, ProgramFault>
    ensures { Tells (spec.map_named functions.now ident.now) result }
{
    if ident.text.as_slice() == b"same".as_slice() {
        return Ok(named_as(Use::Same, ident));
    }
    own_named(Sort::Map, functions, ident)
}

fn reduce_named(functions: &[Function], ident: &Ident) -> Result<Named, ProgramFault>
    ensures { Tells (spec.reduce_named functions.now ident.now) result }
{
    let name = ident.text.as_slice();
    if name == b"least".as_slice() {
        Ok(named_as(Use::Least, ident))
    } else if name == b"every".as_slice() {
        Ok(named_as(Use::Every, ident))
    } else if name == b"hop".as_slice() {
        Ok(named_as(Use::Hop, ident))
    } else {
        own_named(Sort::Reduce, functions, ident)
    }
}

/// The partition of a step, which may have none of its own.
fn partition_named(
    functions: &[Function],
    line: u64,
    partition: &Option<Ident>,
) -> Result<Named, ProgramFault>
    ensures { Tells (spec.partition_named functions.now line partition.now) result }
{
    match partition {
        Some(ident) => own_named(Sort::Partition, functions, ident),
        None => Ok(Named {
            what: Use::Default,
            line,
        }),
    }
}

fn distance_named(functions: &[Function], stop: &StopSketch) -> Result<Named, ProgramFault>
    ensures { Tells (spec.distance_named functions.now stop.now) result }
{
    match stop {
        StopSketch::Below { by, .. } => own_named(Sort::Distance, functions, by),
        StopSketch::Exact => Ok(Named {
            what: Use::Default,
            line: 0,
        }),
    }
}

/// The program's own function of this sort and name.
fn own_named(sort: Sort, functions: &[Function], ident: &Ident) -> Result<Named, ProgramFault>
    ensures { Tells (spec.own_named sort functions.now ident.now) result }
{
    match own_place(sort, ident.text.as_slice(), functions) {
        Some(place) => Ok(named_as(Use::Function(number_of(place)?), ident)),
        None => Err(ProgramFault::At {
            line: ident.line,
            what: What::UnknownName,
        }),
    }
}

fn own_place(sort: Sort, name: &[u8], functions: &[Function]) -> Option<usize>
    ensures { result ≡ position (spec.is_called sort name.now) functions.now }
{
    functions
        .iter()
        .position(|function| is_called(sort, name, function))
}

fn named_as(what: Use, ident: &Ident) -> Named
    ensures { result ≡ spec.named what ident.now }
{
    Named {
        what,
        line: ident.line,
    }
}

fn is_called(sort: Sort, name: &[u8], function: &Function) -> bool
    ensures { result ≡ spec.is_called sort name.now function.now }
{
    is_of(sort, function) && name == name_of(function).text.as_slice()
}

fn is_of(sort: Sort, function: &Function) -> bool
    ensures { result ≡ spec.is_of sort function.now }
{
    matches!(
        (sort, function),
        (Sort::Map, Function::Map { .. })
            | (Sort::Reduce, Function::Reduce { .. })
            | (Sort::Distance, Function::Distance { .. })
            | (Sort::Partition, Function::Partition { .. })
    )
}

/// The name of a function.
pub(crate) fn name_of(function: &Function) -> &Ident
    ensures { result.now ≡ functions.name_of function.now }
{
    match function {
        Function::Map { name, .. }
        | Function::Reduce { name, .. }
        | Function::Distance { name, .. }
        | Function::Partition { name, .. } => name,
    }
}
