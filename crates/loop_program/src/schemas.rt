ghost use Rattle.std.specs.Prelude.{◌≡◌, ◌≤◌, IfOk, None, length, map};
ghost use Rattle.std.specs.List.{list_all};
ghost use Rattle.std.specs.Option.{option_copied};
ghost use Rattle.hal_base.specs.declared.shape.Source.{Source as Read};
ghost use Rattle.hal_base.specs.Shapes as shapes;
ghost use Rattle.loop_program.specs.Found.{each};
ghost use Rattle.loop_program.specs.Schemas as spec;
ghost use Rattle.loop_program.specs.Schemas.{kind_taken, same_kinds, schema_read};
ghost use Rattle.loop_program.specs.steps.Tells.{Tells};

use crate::places::{Named, NamedSource, NamedStep};
use function_language::{Function, Param, Stream};
use hal_base::{
    CopyIn, Items, Kind, Kinds, Memory, Origin, Schema, Schemas, Source, Sources, Step, Steps,
};
use program_sketch::{ProgramFault, TableSketch, What};
use std::alloc::Global;
use type_checker::{Use, same_kind};

/// What a step is read against: the program's own functions, the schemas of its tables and of its state, and
/// that of the output before the step.
#[derive(Clone, Copy)]
pub(crate) struct Before<'a> {
    pub(crate) functions: &'a [Function],
    pub(crate) tables: &'a [Schema],
    pub(crate) state: &'a Schema,
    pub(crate) output: &'a Schema,
}

/// The schema of each table.
pub(crate) fn table_schemas(alloc: Global, tables: &[TableSketch]) -> Result<Schemas, ProgramFault>
    ensures { Tells (each spec.table_schema tables.now) result }
{
    let mut schemas = Schemas::new(alloc);
    'tables: for table in tables {
        schemas.push(table_schema(alloc, table)?)?;
    }
    Ok(schemas)
}

fn table_schema(alloc: Global, table: &TableSketch) -> Result<Schema, ProgramFault>
    ensures { Tells (spec.table_schema table.now) result }
{
    match schema_of(alloc, table.row.kinds.as_slice())? {
        Some(schema) => Ok(schema),
        None => Err(ProgramFault::At {
            line: table.name.line,
            what: What::Limit,
        }),
    }
}

/// The steps, one behind the other, with the schemas of their streams and outputs.
pub(crate) fn steps_typed(
    alloc: Global,
    functions: &[Function],
    tables: &[Schema],
    state: &Schema,
    steps: &[NamedStep],
) -> Result<Steps, ProgramFault>
    ensures { Tells (spec.steps_typed functions.now tables.now state.now state.now steps.now) result }
{
    let mut made = Steps::new(alloc);
    let mut output = state.copy(alloc)?;
    'steps: for step in steps {
        let before = Before {
            functions,
            tables,
            state,
            output: &output,
        };
        let typed = step_typed(alloc, &before, step)?;
        let next = typed.out.copy(alloc)?;
        made.push(typed)?;
        output = next;
    }
    Ok(made)
}

fn step_typed(alloc: Global, before: &Before<'_>, step: &NamedStep) -> Result<Step, ProgramFault>
    ensures { Tells (spec.step_typed before.now.functions.now (schema_read before.now.tables.now before.now.state.now before.now.output.now) step.now) result }
{
    let sources = sources_typed(alloc, before, step.sources.as_slice())?;
    let Some(out) = reduce_makes(
        alloc,
        before.functions,
        step.reduce.what,
        sources.as_slice(),
    )?
    else {
        return Err(mismatch(step.reduce.line));
    };
    if !partition_takes(
        before.functions,
        step.partition.what,
        key_kind(sources.as_slice()),
    ) {
        return Err(mismatch(step.partition.line));
    }
    Ok(Step { sources, out })
}

pub(crate) fn mismatch(line: u64) -> ProgramFault
    ensures { result ≡ spec.mismatch line }
{
    ProgramFault::At {
        line,
        what: What::SchemaMismatch,
    }
}

/// The kind of the streams' keys.
fn key_kind(sources: &[Source]) -> Kind
    ensures { result ≡ shapes.key_kind sources.now }
{
    match sources {
        [first, ..] => first.stream.key,
        [] => Kind::Int,
    }
}

fn sources_typed(
    alloc: Global,
    before: &Before<'_>,
    sources: &[NamedSource],
) -> Result<Sources, ProgramFault>
    ensures { Tells (spec.sources_typed before.now.functions.now (schema_read before.now.tables.now before.now.state.now before.now.output.now) None sources.now) result }
{
    let mut made = Sources::new(alloc);
    let mut key = None;
    'sources: for source in sources {
        let typed = source_typed(alloc, before, key, source)?;
        key = Some(typed.stream.key);
        made.push(typed)?;
    }
    Ok(made)
}

/// A source behind a stream with a key of this kind, if there is one.
fn source_typed(
    alloc: Global,
    before: &Before<'_>,
    key: Option<Kind>,
    source: &NamedSource,
) -> Result<Source, ProgramFault>
    ensures { Tells (spec.source_typed before.now.functions.now (schema_read before.now.tables.now before.now.state.now before.now.output.now) key source.now) result }
{
    let line = source.map.line;
    let Some(schema) = schema_read(before, &source.from) else {
        return Err(mismatch(line));
    };
    let Some(stream) = map_makes(alloc, before.functions, source.map.what, schema)? else {
        return Err(mismatch(line));
    };
    if !suits(key, stream.key) {
        return Err(mismatch(line));
    }
    Ok(Source {
        from: source.from,
        stream,
        reducer_input: false,
        mapper_input: false,
    })
}

/// The schema of the records that a source takes.
fn schema_read<'a>(before: &Before<'a>, from: &Origin) -> Option<&'a Schema>
    ensures { option_copied result ≡ spec.schema_read before.now.tables.now before.now.state.now before.now.output.now from.now }
{
    match from {
        Origin::State => Some(before.state),
        Origin::Prev => Some(before.output),
        Origin::Table { table, .. } => before.tables.get(*table as usize),
    }
}

/// A key is of the same kind as the one before, if there is one.
fn suits(key: Option<Kind>, found: Kind) -> bool
    ensures { result ≡ spec.suits key found }
{
    match key {
        Some(key) => same_kind(key, found),
        None => true,
    }
}

// ---- what functions make

/// The schema of what a map makes of records of this one. `None` where it does not take them.
fn map_makes(
    alloc: Global,
    functions: &[Function],
    used: Use,
    schema: &Schema,
) -> Result<Option<Schema>, Memory>
    ensures { IfOk result (λ made. made ≡ spec.map_makes functions.now used schema.now) }
{
    match used {
        Use::Same => Ok(Some(schema.copy(alloc)?)),
        Use::Function(number) => match functions.get(number as usize) {
            Some(function) => own_map_makes(alloc, function, schema),
            None => Ok(None),
        },
        Use::Least | Use::Every | Use::Hop | Use::Default => Ok(None),
    }
}

fn own_map_makes(
    alloc: Global,
    function: &Function,
    schema: &Schema,
) -> Result<Option<Schema>, Memory>
    ensures { IfOk result (λ made. made ≡ spec.own_map_makes function.now schema.now) }
{
    match function {
        Function::Map { params, out, .. } if are_params(params.as_slice(), schema) => {
            schema_of(alloc, out.kinds.as_slice())
        }
        _ => Ok(None),
    }
}

/// The kinds of the parameters are those of the schema's records.
fn are_params(params: &[Param], schema: &Schema) -> bool
    ensures { result ≡ spec.are_params params.now schema.now }
{
    match params {
        [key, fields @ ..] => {
            same_kind(key.kind, schema.key) && are_fields(fields, schema.fields.as_slice())
        }
        [] => false,
    }
}

fn are_fields(params: &[Param], kinds: &[Kind]) -> bool
    ensures { result ≡ same_kinds (map kind_taken params.now) kinds.now }
{
    let mut left = params;
    let mut wanted = kinds;
    'fields: while let [param, params @ ..] = left {
        let [kind, kinds @ ..] = wanted else {
            return false;
        };
        if !same_kind(param.kind, *kind) {
            return false;
        }
        left = params;
        wanted = kinds;
    }
    wanted.is_empty()
}

/// The schema of what a reduce makes of these streams. `None` where it does not take them.
fn reduce_makes(
    alloc: Global,
    functions: &[Function],
    used: Use,
    sources: &[Source],
) -> Result<Option<Schema>, Memory>
    ensures { IfOk result (λ made. made ≡ spec.reduce_makes functions.now used sources.now) }
{
    match used {
        Use::Least | Use::Every => one_schema(alloc, sources),
        Use::Hop => hop_makes(alloc, sources),
        Use::Function(number) => match functions.get(number as usize) {
            Some(function) => own_reduce_makes(alloc, function, sources),
            None => Ok(None),
        },
        Use::Same | Use::Default => Ok(None),
    }
}

fn one_schema(alloc: Global, sources: &[Source]) -> Result<Option<Schema>, Memory>
    ensures { IfOk result (λ made. made ≡ spec.one_schema sources.now) }
{
    let [first, others @ ..] = sources else {
        return Ok(None);
    };
    if !are_alike(&first.stream, others) {
        return Ok(None);
    }
    Ok(Some(first.stream.copy(alloc)?))
}

fn are_alike(schema: &Schema, sources: &[Source]) -> bool
    ensures { result ≡ list_all (λ (source : Read). spec.same_schema schema.now source.stream) sources.now }
{
    sources
        .iter()
        .all(|source| same_schema(schema, &source.stream))
}

pub(crate) fn same_schema(a: &Schema, b: &Schema) -> bool
    ensures { result ≡ spec.same_schema a.now b.now }
{
    same_kind(a.key, b.key) && same_kinds(a.fields.as_slice(), b.fields.as_slice())
}

fn same_kinds(some: &[Kind], others: &[Kind]) -> bool
    ensures { result ≡ spec.same_kinds some.now others.now }
{
    let mut left = some;
    let mut wanted = others;
    'kinds: while let [kind, kinds @ ..] = left {
        let [other, others @ ..] = wanted else {
            return false;
        };
        if !same_kind(*kind, *other) {
            return false;
        }
        left = kinds;
        wanted = others;
    }
    wanted.is_empty()
}

fn hop_makes(alloc: Global, sources: &[Source]) -> Result<Option<Schema>, Memory>
    ensures { IfOk result (λ made. made ≡ spec.hop_makes sources.now) }
{
    match sources {
        [distances, targets] => hop_from(
            alloc,
            distances.stream.fields.as_slice(),
            targets.stream.fields.as_slice(),
        ),
        _ => Ok(None),
    }
}

fn hop_from(alloc: Global, distances: &[Kind], targets: &[Kind]) -> Result<Option<Schema>, Memory>
    ensures { IfOk result (λ made. made ≡ spec.hop_from distances.now targets.now) }
{
    match (distances, targets) {
        ([Kind::Int], [target]) => {
            let mut fields = Kinds::new(alloc);
            fields.push(Kind::Int)?;
            Ok(Some(Schema {
                key: *target,
                fields,
            }))
        }
        _ => Ok(None),
    }
}

fn own_reduce_makes(
    alloc: Global,
    function: &Function,
    sources: &[Source],
) -> Result<Option<Schema>, Memory>
    ensures { IfOk result (λ made. made ≡ spec.own_reduce_makes function.now sources.now) }
{
    match function {
        Function::Reduce {
            key,
            streams,
            out,
            ..
        } if are_streams(key.kind, streams.as_slice(), sources) => {
            schema_of(alloc, out.kinds.as_slice())
        }
        _ => Ok(None),
    }
}

/// The streams, whose key is of this kind, are those of the sources.
fn are_streams(key: Kind, streams: &[Stream], sources: &[Source]) -> bool
    ensures { result ≡ spec.are_streams key streams.now sources.now }
{
    let mut left = streams;
    let mut found = sources;
    'streams: while let [stream, streams @ ..] = left {
        let [source, sources @ ..] = found else {
            return false;
        };
        if !is_stream(key, stream, &source.stream) {
            return false;
        }
        left = streams;
        found = sources;
    }
    found.is_empty()
}

/// The stream, whose key is of this kind, is of this schema.
fn is_stream(key: Kind, stream: &Stream, schema: &Schema) -> bool
    ensures { result ≡ spec.is_stream key stream.now schema.now }
{
    same_kind(key, schema.key) && same_kinds(stream.kinds.as_slice(), schema.fields.as_slice())
}

/// A partition takes keys of this kind.
fn partition_takes(functions: &[Function], used: Use, found: Kind) -> bool
    ensures { result ≡ spec.partition_takes functions.now used found }
{
    match used {
        Use::Default => true,
        Use::Function(number) => match functions.get(number as usize) {
            Some(Function::Partition { key, .. }) => same_kind(key.kind, found),
            _ => false,
        },
        Use::Same | Use::Least | Use::Every | Use::Hop => false,
    }
}

/// A distance takes the groups of records of this schema.
pub(crate) fn distance_takes(functions: &[Function], used: Use, schema: &Schema) -> bool
    ensures { result ≡ spec.distance_takes functions.now used schema.now }
{
    match used {
        Use::Default => true,
        Use::Function(number) => match functions.get(number as usize) {
            Some(
                Function::Distance {
                    key,
                    before,
                    after,
                    ..
                },
            ) => is_stream(key.kind, before, schema) && is_stream(key.kind, after, schema),
            _ => false,
        },
        Use::Same | Use::Least | Use::Every | Use::Hop => false,
    }
}

/// The schema of records of these kinds, that of the key first. `None` where they are not from 1 to 8.
fn schema_of(alloc: Global, kinds: &[Kind]) -> Result<Option<Schema>, Memory>
    ensures { IfOk result (λ schema. schema ≡ spec.schema_of kinds.now) }
{
    match kinds {
        [key, fields @ ..] if fields.len() <= 7 => Ok(Some(Schema {
            key: *key,
            fields: kinds_of(alloc, fields)?,
        })),
        _ => Ok(None),
    }
}

fn kinds_of(alloc: Global, fields: &[Kind]) -> Result<Kinds, Memory>
    requires { length fields.now ≤ 7 }
    ensures { IfOk result (λ kinds. kinds ≡ fields.now) }
{
    let mut kinds = Kinds::new(alloc);
    'fields: for kind in fields {
        kinds.push(*kind)?;
    }
    Ok(kinds)
}
