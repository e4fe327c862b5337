ghost use Rattle.std.specs.Prelude.{◌≡◌, [], map};
ghost use Rattle.function_language.specs.declared.tree.Expr.TheVariants as an_expr;
ghost use Rattle.hal_base.specs.declared.value.Kind.TheVariants as kind;
ghost use Rattle.operations.specs.Operations as operations;
ghost use Rattle.type_checker.specs.Kinds as kinds;
ghost use Rattle.type_checker.specs.Kinds.{judged};
ghost use Rattle.type_checker.specs.Scopes as scopes;
ghost use Rattle.type_checker.specs.declared.fault.TypeFault.TheVariants as faults;

use crate::fault::TypeFault;
use crate::scope::{Scope, Setting};
use function_language::Expr;
use hal_base::Kind;
use operations::{Operation, Wanted, operation_named};
use program_tokens::Ident;

/// Whether two kinds are one.
pub fn same_kind(a: Kind, b: Kind) -> bool
    ensures { result ≡ kinds.same_kind a b }
{
    matches!((a, b), (Kind::Int, Kind::Int) | (Kind::Text, Kind::Text))
}

/// The line of the first token of an expression.
pub fn line_of(expr: &Expr) -> u64
    ensures { result ≡ kinds.line_of expr.now }
{
    match expr {
        Expr::Int { line, .. } | Expr::Text { line, .. } | Expr::Round { line } => *line,
        Expr::Name(ident) => ident.line,
        Expr::Call { name, .. } => name.line,
    }
}

/// What stands in this line is of the kind that its place asks for.
fn of_kind(setting: &Setting, want: Kind, line: u64, got: Kind) -> Result<(), TypeFault>
    ensures { result ≡ kinds.of_kind setting.now want line got }
{
    if same_kind(want, got) {
        return Ok(());
    }
    Err(TypeFault::WrongKind {
        function: setting.function,
        line,
        want,
        got,
    })
}

/// An argument is what is wanted, where the one before is of this kind.
fn suits(
    setting: &Setting,
    want: Wanted,
    before: Kind,
    line: u64,
    got: Kind,
) -> Result<(), TypeFault>
    ensures { result ≡ kinds.suits setting.now want before line got }
{
    match want {
        Wanted::Of(kind) => of_kind(setting, kind, line, got),
        Wanted::Any => Ok(()),
        Wanted::AsBefore => of_kind(setting, before, line, got),
    }
}

/// The fault of a name that stands for nothing here.
pub fn unknown(setting: &Setting, line: u64) -> TypeFault
    ensures { result ≡ faults.UnknownName setting.now.function line }
{
    TypeFault::UnknownName {
        function: setting.function,
        line,
    }
}

/// The operation of this name, which takes so many arguments.
fn operation_for(setting: &Setting, ident: &Ident, count: usize) -> Result<Operation, TypeFault>
    ensures { result ≡ kinds.takes setting.now ident.now count (operations.operation_named ident.now.text) }
{
    let Some(operation) = operation_named(ident.text.as_slice()) else {
        return Err(unknown(setting, ident.line));
    };
    if operation.wanted().len() == count {
        return Ok(operation);
    }
    Err(TypeFault::WrongCount {
        function: setting.function,
        line: ident.line,
    })
}

/// The kind of `round`, where it may stand.
fn kind_of_round(setting: &Setting, line: u64) -> Result<Kind, TypeFault>
    ensures { result ≡ kinds.kind_in setting.now [] (an_expr.Round line) }
{
    if setting.has_round {
        return Ok(Kind::Int);
    }
    Err(unknown(setting, line))
}

/// The kind of the parameter or variable of this name.
fn kind_of_name(setting: &Setting, scope: &Scope, ident: &Ident) -> Result<Kind, TypeFault>
    ensures { result ≡ scopes.kind_found setting.now ident.now (scopes.known ident.now.text scope.now) }
{
    match scope.find(ident.text.as_slice()) {
        Some(value) => Ok(value.kind),
        None => Err(unknown(setting, ident.line)),
    }
}

/// The kind of an expression, or its first fault. docs/LANGUAGE.md, "Kinds and scopes".
#[cycle(expression)]
pub fn kind_of(setting: &Setting, scope: &Scope, expr: &Expr) -> Result<Kind, TypeFault>
    ensures { result ≡ kinds.kind_in setting.now scope.now expr.now }
{
    match expr {
        Expr::Int { .. } => Ok(Kind::Int),
        Expr::Text { .. } => Ok(Kind::Text),
        Expr::Round { line } => kind_of_round(setting, *line),
        Expr::Name(ident) => kind_of_name(setting, scope, ident),
        Expr::Call { name, args } => kind_of_call(setting, scope, name, args.as_slice()),
    }
}

/// The kind of a call by this name with these arguments.
#[cycle(expression)]
fn kind_of_call(
    setting: &Setting,
    scope: &Scope,
    ident: &Ident,
    args: &[Expr],
) -> Result<Kind, TypeFault>
    ensures { result ≡ kinds.call_kind setting.now ident.now (map (judged setting.now scope.now) args.now) }
{
    let operation = operation_for(setting, ident, args.len())?;
    let last = kind_of_last(setting, scope, operation.wanted(), args)?;
    Ok(operation.given(last))
}

/// The kind of the last argument, where each is what is wanted of it.
#[cycle(expression)]
fn kind_of_last(
    setting: &Setting,
    scope: &Scope,
    wants: &[Wanted],
    args: &[Expr],
) -> Result<Kind, TypeFault>
    ensures { result ≡ kinds.args_kind setting.now wants.now kind.Int (map (judged setting.now scope.now) args.now) }
{
    let mut before = Kind::Int;
    let mut left = wants;
    'args: for arg in args {
        let [want, others @ ..] = left else {
            return Ok(before);
        };
        let got = kind_of(setting, scope, arg)?;
        suits(setting, *want, before, line_of(arg), got)?;
        before = got;
        left = others;
    }
    Ok(before)
}

/// An expression is of the kind that its place asks for.
pub fn expect_kind(
    setting: &Setting,
    scope: &Scope,
    want: Kind,
    expr: &Expr,
) -> Result<(), TypeFault>
    ensures { result ≡ kinds.is_of_kind setting.now scope.now want expr.now }
{
    let got = kind_of(setting, scope, expr)?;
    of_kind(setting, want, line_of(expr), got)
}
