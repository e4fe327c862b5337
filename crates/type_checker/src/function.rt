ghost use Rattle.std.specs.Prelude.{◌≡◌, [], IfOk};
ghost use Rattle.type_checker.specs.Functions as spec;
ghost use Rattle.type_checker.specs.Functions.{body_right, functions_right, params_scope, streams_beside};
ghost use Rattle.type_checker.specs.steps.Checks.{Leaves, Passes, Tells, distance_right, function_right, map_right, partition_right, reduce_right, stream_beside};

use crate::fault::TypeFault;
use crate::scope::{KnownStream, KnownStreams, Scope, Setting, declare, is_taken, value_of};
use crate::statement::check_statements;
use function_language::{Block, Function, Param, Row, Statement, Stream};
use hal_base::{CopyIn, Items, Kind, Memory};
use name_index::NameIndex;
use program_tokens::Ident;
use std::alloc::Global;

/// Checks functions, one after another, to the first fault. docs/LANGUAGE.md, "Kinds and scopes".
pub fn check_functions(alloc: Global, functions: &[Function]) -> Result<(), TypeFault>
    ensures { Tells (functions_right 0 [] functions.now) result }
{
    let mut names = NameIndex::new(alloc);
    let mut number: u64 = 0;
    'functions: for function in functions {
        check_function(alloc, number, &mut names, function)?;
        number += 1;
    }
    Ok(())
}

/// Checks the function of this number, where functions of these names stand before it, and adds its name.
fn check_function(
    alloc: Global,
    number: u64,
    names: &mut NameIndex,
    function: &Function,
) -> Result<(), TypeFault>
    ensures { Leaves (function_right number names.old function.now) result names.new }
{
    let ident = name_of(function);
    expect_free(number, names, ident)?;
    check_parts(alloc, number, function)?;
    names.push(alloc, &ident.text)?;
    Ok(())
}

/// The name of a function.
fn name_of(function: &Function) -> &Ident
    ensures { result.now ≡ spec.name_of function.now }
{
    match function {
        Function::Map { name, .. }
        | Function::Reduce { name, .. }
        | Function::Distance { name, .. }
        | Function::Partition { name, .. } => name,
    }
}

/// Whether a predefined function has this name.
fn is_predefined(name: &[u8]) -> bool
    ensures { result ≡ spec.is_predefined name.now }
{
    name == b"same".as_slice()
        || name == b"least".as_slice()
        || name == b"every".as_slice()
        || name == b"hop".as_slice()
}

/// The name of the function of this number is free, where functions of these names stand before it.
fn expect_free(number: u64, names: &NameIndex, ident: &Ident) -> Result<(), TypeFault>
    ensures { result ≡ spec.name_free number names.now ident.now }
{
    let name = ident.text.as_slice();
    if is_predefined(name) || names.has(name) {
        return Err(TypeFault::DoubleName {
            function: number,
            line: ident.line,
        });
    }
    Ok(())
}

/// Checks the parameters, the streams and the body of the function of this number.
fn check_parts(alloc: Global, number: u64, function: &Function) -> Result<(), TypeFault>
    ensures { Passes (body_right number function.now) result }
{
    match function {
        Function::Map {
            params,
            out,
            body,
            ..
        } => check_map(alloc, number, params.as_slice(), out, body.as_slice()),
        Function::Reduce {
            key,
            streams,
            out,
            body,
            ..
        } => check_reduce(alloc, number, key, streams.as_slice(), out, body.as_slice()),
        Function::Distance {
            key,
            before,
            after,
            body,
            ..
        } => check_distance(alloc, number, key, before, after, body.as_slice()),
        Function::Partition { key, body, .. } => {
            check_partition(alloc, number, key, body.as_slice())
        }
    }
}

/// Checks a map.
fn check_map(
    alloc: Global,
    number: u64,
    params: &[Param],
    out: &Row,
    body: &[Statement],
) -> Result<(), TypeFault>
    ensures { Passes (map_right number params.now out.now body.now) result }
{
    let setting = Setting {
        function: number,
        has_round: true,
        out: Some(copy_kinds(alloc, out.kinds.as_slice())?),
        streams: KnownStreams::new(alloc),
    };
    let mut scope = Scope::new(alloc);
    declare_params(alloc, &setting, &mut scope, params)?;
    check_statements(alloc, &setting, &mut scope, body)
}

/// Checks a reduce.
fn check_reduce(
    alloc: Global,
    number: u64,
    key: &Param,
    streams: &[Stream],
    out: &Row,
    body: &[Statement],
) -> Result<(), TypeFault>
    ensures { Passes (reduce_right number key.now streams.now out.now body.now) result }
{
    let mut scope = key_scope(alloc, key)?;
    let setting = Setting {
        function: number,
        has_round: true,
        out: Some(copy_kinds(alloc, out.kinds.as_slice())?),
        streams: known_streams(alloc, number, &scope, streams)?,
    };
    check_statements(alloc, &setting, &mut scope, body)
}

/// Checks a distance.
fn check_distance(
    alloc: Global,
    number: u64,
    key: &Param,
    before: &Stream,
    after: &Stream,
    body: &[Statement],
) -> Result<(), TypeFault>
    ensures { Passes (distance_right number key.now before.now after.now body.now) result }
{
    let mut scope = key_scope(alloc, key)?;
    let mut streams = KnownStreams::new(alloc);
    add_stream(alloc, number, &scope, &mut streams, before)?;
    add_stream(alloc, number, &scope, &mut streams, after)?;
    let setting = Setting {
        function: number,
        has_round: false,
        out: None,
        streams,
    };
    check_statements(alloc, &setting, &mut scope, body)
}

/// Checks a partition.
fn check_partition(
    alloc: Global,
    number: u64,
    key: &Param,
    body: &[Statement],
) -> Result<(), TypeFault>
    ensures { Passes (partition_right number key.now body.now) result }
{
    let mut scope = key_scope(alloc, key)?;
    let setting = Setting {
        function: number,
        has_round: true,
        out: None,
        streams: KnownStreams::new(alloc),
    };
    check_statements(alloc, &setting, &mut scope, body)
}

/// The scope of a key alone.
fn key_scope(alloc: Global, key: &Param) -> Result<Scope, Memory>
    ensures { IfOk result (λ scope. scope ≡ spec.key_scope key.now) }
{
    let mut scope = Scope::new(alloc);
    scope.push(alloc, value_of(alloc, &key.name, key.kind, false)?)?;
    Ok(scope)
}

/// The same kinds, in a list of their own.
fn copy_kinds(alloc: Global, kinds: &[Kind]) -> Result<Items<Kind>, Memory>
    ensures { IfOk result (λ copied. copied ≡ kinds.now) }
{
    Ok(Items::from_vec(Vec::from_slice(alloc, kinds)?))
}

/// Adds parameters to the scope.
fn declare_params(
    alloc: Global,
    setting: &Setting,
    scope: &mut Scope,
    params: &[Param],
) -> Result<(), TypeFault>
    ensures { Leaves (params_scope setting.now scope.old params.now) result scope.new }
{
    'params: for param in params {
        declare(alloc, setting, scope, &param.name, param.kind, false)?;
    }
    Ok(())
}

/// The streams beside this scope.
fn known_streams(
    alloc: Global,
    number: u64,
    scope: &Scope,
    streams: &[Stream],
) -> Result<KnownStreams, TypeFault>
    ensures { Tells (streams_beside number scope.now [] streams.now) result }
{
    let mut known = KnownStreams::new(alloc);
    'streams: for stream in streams {
        add_stream(alloc, number, scope, &mut known, stream)?;
    }
    Ok(known)
}

/// Adds a stream beside this scope, whose name must be free.
fn add_stream(
    alloc: Global,
    number: u64,
    scope: &Scope,
    known: &mut KnownStreams,
    stream: &Stream,
) -> Result<(), TypeFault>
    ensures { Leaves (stream_beside number scope.now known.old stream.now) result known.new }
{
    let name = &stream.name;
    if is_taken(name.text.as_slice(), scope, known) {
        return Err(TypeFault::DoubleName {
            function: number,
            line: name.line,
        });
    }
    let added = KnownStream {
        name: name.text.copy(alloc)?,
        kinds: copy_kinds(alloc, stream.kinds.as_slice())?,
    };
    known.push(alloc, added)?;
    Ok(())
}
