ghost use Rattle.std.specs.Prelude.{◌≡◌, drop, map};
ghost use Rattle.std.specs.Option.{option_copied};
ghost use Rattle.function_language.specs.declared.tree.Statement.TheVariants as a_statement;
ghost use Rattle.type_checker.specs.Kinds.{judged};
ghost use Rattle.type_checker.specs.Scopes as scopes;
ghost use Rattle.type_checker.specs.Statements as spec;
ghost use Rattle.type_checker.specs.Statements.{after, all_after, each_emitted, emits, loop_names, loop_scope};
ghost use Rattle.type_checker.specs.steps.Checks.{Leaves, for_after, within};
ghost use Rattle.type_checker.specs.declared.fault.TypeFault.TheVariants as faults;

use crate::expression::{expect_kind, kind_of, line_of, same_kind, unknown};
use crate::fault::TypeFault;
use crate::scope::{Known, KnownStream, Scope, Setting, declare};
use function_language::{Block, Expr, Statement};
use hal_base::Kind;
use program_tokens::Ident;
use std::alloc::Global;

/// Checks statements, one after another, and leaves in scope what they declare.
/// docs/LANGUAGE.md, "Kinds and scopes".
#[cycle(statement)]
pub fn check_statements(
    alloc: Global,
    setting: &Setting,
    scope: &mut Scope,
    statements: &[Statement],
) -> Result<(), TypeFault>
    ensures { Leaves (all_after setting.now scope.old statements.now) result scope.new }
{
    'statements: for statement in statements {
        check_statement(alloc, setting, scope, statement)?;
    }
    Ok(())
}

/// Checks a statement, and leaves in scope what it declares.
#[cycle(statement)]
fn check_statement(
    alloc: Global,
    setting: &Setting,
    scope: &mut Scope,
    statement: &Statement,
) -> Result<(), TypeFault>
    ensures { Leaves (after setting.now scope.old statement.now) result scope.new }
{
    match statement {
        Statement::Let { name, value } => check_let(alloc, setting, scope, name, value),
        Statement::Set { name, value } => check_set(setting, scope, name, value),
        Statement::If { test, yes, no } => {
            expect_kind(setting, scope, Kind::Int, test)?;
            check_block(alloc, setting, scope, yes.as_slice())?;
            match no {
                Some(other) => check_block(alloc, setting, scope, other.as_slice()),
                None => Ok(()),
            }
        }
        Statement::For {
            names,
            stream,
            body,
        } => check_for(
            alloc,
            setting,
            scope,
            names.as_slice(),
            stream,
            body.as_slice(),
        ),
        Statement::Emit { line, args } => check_emit(setting, scope, *line, args.as_slice()),
        Statement::Give { line, value } => check_give(setting, scope, *line, value),
    }
}

/// Checks a block within another, and leaves the scope as it was.
#[cycle(statement)]
fn check_block(
    alloc: Global,
    setting: &Setting,
    scope: &mut Scope,
    block: &[Statement],
) -> Result<(), TypeFault>
    ensures { Leaves (within setting.now scope.old block.now) result scope.new }
{
    let before = scope.len();
    check_statements(alloc, setting, scope, block)?;
    scope.truncate(before);
    Ok(())
}

/// Checks a `for`, whose names are in scope within its block alone.
#[cycle(statement)]
fn check_for(
    alloc: Global,
    setting: &Setting,
    scope: &mut Scope,
    names: &[Ident],
    stream: &Ident,
    body: &[Statement],
) -> Result<(), TypeFault>
    ensures { Leaves (for_after setting.now scope.old names.now stream.now body.now) result scope.new }
{
    let before = scope.len();
    enter_loop(alloc, setting, scope, names, stream)?;
    check_statements(alloc, setting, scope, body)?;
    scope.truncate(before);
    Ok(())
}

/// Checks a `let`.
fn check_let(
    alloc: Global,
    setting: &Setting,
    scope: &mut Scope,
    ident: &Ident,
    value: &Expr,
) -> Result<(), TypeFault>
    ensures { Leaves (after setting.now scope.old (a_statement.Let ident.now value.now)) result scope.new }
{
    let kind = kind_of(setting, scope, value)?;
    declare(alloc, setting, scope, ident, kind, true)
}

/// Checks a `set`.
fn check_set(setting: &Setting, scope: &Scope, ident: &Ident, value: &Expr) -> Result<(), TypeFault>
    ensures { Leaves (after setting.now scope.now (a_statement.Set ident.now value.now)) result scope.now }
{
    let kind = kind_to_set(setting, ident, scope.find(ident.text.as_slice()))?;
    expect_kind(setting, scope, kind, value)?;
    Ok(())
}

/// The kind of what a `set` changes, which must be a variable of a `let`.
fn kind_to_set(setting: &Setting, ident: &Ident, found: Option<&Known>) -> Result<Kind, TypeFault>
    ensures { result ≡ scopes.kind_to_set setting.now ident.now (option_copied found.entry) }
{
    match found {
        Some(value) if value.variable => Ok(value.kind),
        _ => Err(unknown(setting, ident.line)),
    }
}

/// Adds the names of a loop to the scope, and only then looks at its stream.
fn enter_loop(
    alloc: Global,
    setting: &Setting,
    scope: &mut Scope,
    names: &[Ident],
    stream: &Ident,
) -> Result<(), TypeFault>
    ensures { Leaves (loop_scope setting.now scope.old names.now stream.now) result scope.new }
{
    let found = setting.streams.find(stream.text.as_slice());
    declare_names(alloc, setting, scope, names, kinds_of(found))?;
    has_fields(setting, stream, names.len(), found)?;
    Ok(())
}

/// Adds the names of a loop to the scope; those past the last kind count as numbers.
fn declare_names(
    alloc: Global,
    setting: &Setting,
    scope: &mut Scope,
    names: &[Ident],
    kinds: &[Kind],
) -> Result<(), TypeFault>
    ensures { Leaves (loop_names setting.now scope.old names.now kinds.now) result scope.new }
{
    let mut left = kinds;
    'names: for name in names {
        let (kind, others) = split_kinds(left);
        declare(alloc, setting, scope, name, kind, false)?;
        left = others;
    }
    Ok(())
}

/// The first of some kinds, and the others.
fn split_kinds(kinds: &[Kind]) -> (Kind, &[Kind])
    ensures first { result.0 ≡ spec.first_kind kinds.now }
    ensures others { result.1.now ≡ drop 1 kinds.now }
{
    match kinds {
        [first, others @ ..] => (*first, others),
        [] => (Kind::Int, kinds),
    }
}

/// The kinds of the fields of a stream, if there is one.
fn kinds_of(found: Option<&KnownStream>) -> &[Kind]
    ensures { result.now ≡ spec.kinds_of (option_copied found.entry) }
{
    match found {
        Some(stream) => stream.kinds.as_slice(),
        None => &[],
    }
}

/// There is a stream, and it has so many fields.
fn has_fields(
    setting: &Setting,
    ident: &Ident,
    count: usize,
    found: Option<&KnownStream>,
) -> Result<(), TypeFault>
    ensures { result ≡ spec.has_fields setting.now ident.now count (option_copied found.entry) }
{
    match found {
        Some(stream) if stream.kinds.len() == count => Ok(()),
        _ => Err(TypeFault::StreamMismatch {
            function: setting.function,
            line: ident.line,
        }),
    }
}

/// The fault of what may not be emitted or given here.
fn mismatch(setting: &Setting, line: u64) -> TypeFault
    ensures { result ≡ faults.EmitMismatch setting.now.function line }
{
    TypeFault::EmitMismatch {
        function: setting.function,
        line,
    }
}

/// Checks an `emit`, whose word stands in this line.
fn check_emit(setting: &Setting, scope: &Scope, line: u64, args: &[Expr]) -> Result<(), TypeFault>
    ensures { Leaves (after setting.now scope.now (a_statement.Emit line args.now)) result scope.now }
{
    check_record(setting, scope, line, args)?;
    Ok(())
}

/// Checks the record of an `emit`.
fn check_record(setting: &Setting, scope: &Scope, line: u64, args: &[Expr]) -> Result<(), TypeFault>
    ensures { result ≡ emits setting.now line setting.now.out (map (judged setting.now scope.now) args.now) }
{
    match &setting.out {
        Some(kinds) if kinds.len() == args.len() => {
            check_fields(setting, scope, kinds.as_slice(), args)
        }
        _ => Err(mismatch(setting, line)),
    }
}

/// Checks each argument of an `emit`, as far as there are kinds for them.
fn check_fields(
    setting: &Setting,
    scope: &Scope,
    kinds: &[Kind],
    args: &[Expr],
) -> Result<(), TypeFault>
    ensures { result ≡ each_emitted setting.now kinds.now (map (judged setting.now scope.now) args.now) }
{
    let mut left = kinds;
    'args: for arg in args {
        let [want, others @ ..] = left else {
            return Ok(());
        };
        let got = kind_of(setting, scope, arg)?;
        if !same_kind(*want, got) {
            return Err(mismatch(setting, line_of(arg)));
        }
        left = others;
    }
    Ok(())
}

/// Checks a `give`, whose word stands in this line.
fn check_give(setting: &Setting, scope: &Scope, line: u64, value: &Expr) -> Result<(), TypeFault>
    ensures { Leaves (after setting.now scope.now (a_statement.Give line value.now)) result scope.now }
{
    if setting.out.is_some() {
        return Err(mismatch(setting, line));
    }
    expect_kind(setting, scope, Kind::Int, value)?;
    Ok(())
}
