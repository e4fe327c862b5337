ghost use Rattle.std.specs.Prelude.{◌≡◌, [], ◌∷◌, ◌++◌, length, map, IfOk, OnOk};
ghost use Rattle.name_index.specs.Names.{place_of};
ghost use Rattle.function_eval.specs.steps.Resolved.{all_resolved, call_of, for_of, function_resolved, ident_text, param_text, scope_after, scope_of, slot_of, slots_in, resolved, statement_resolved, stream_text, with_names};
ghost use Rattle.function_eval.specs.steps.Resolving.{cut_back, other_resolved, scope_behind, set_in, variable_slot};

use crate::resolved::{ResolvedExpr, ResolvedFunction, ResolvedStatement};
use function_language::{Block, Expr, Function, Param, Statement, Stream};
use hal_base::{CopyIn, Memory, Text};
use name_index::NameIndex;
use operations::{Operation, operation_named};
use program_tokens::Ident;
use sqlite_items::Items;
use std::alloc::Global;
use std::marker::Model;

/// What declares a name.
trait Named {
    ghost use Rattle.std.specs.Prelude.{ℕ, List};

    ghost name: { Self → List ℕ };

    fn name(&self) -> &Text
        ensures { result.now ≡ name self.now };
}

impl Named for Ident {
    ghost use Rattle.function_eval.specs.steps.Resolved.{ident_text};

    ghost name = { ident_text };

    fn name(&self) -> &Text {
        &self.text
    }
}

impl Named for Param {
    ghost use Rattle.function_eval.specs.steps.Resolved.{param_text};

    ghost name = { param_text };

    fn name(&self) -> &Text {
        &self.name.text
    }
}

impl Named for Stream {
    ghost use Rattle.function_eval.specs.steps.Resolved.{stream_text};

    ghost name = { stream_text };

    fn name(&self) -> &Text {
        &self.name.text
    }
}

/// Adds the names of these.
fn push_all<T: Named>(names: &mut NameIndex, alloc: Global, items: &[T]) -> Result<(), Memory>
    ensures { OnOk result (names.new ≡ names.old ++ map T.name items.now) }
{
    'items: for item in items {
        names.push(alloc, item.name())?;
    }
    Ok(())
}

/// The names in scope: those of slots, parameters and then variables, and those of streams.
#[derive(Drop)]
struct ScopeNames {
    params: NameIndex,
    variables: NameIndex,
    streams: NameIndex,
}

impl Model for ScopeNames {
    ghost use Rattle.function_eval.specs.steps.Resolved.{Scope};

    ghost Value = { Scope };

    ghost view = { λ s. record { params = s.params; variables = s.variables; streams = s.streams } };
}

impl ScopeNames {
    fn new(alloc: Global, params: NameIndex, streams: NameIndex) -> ScopeNames
        ensures { result ≡ scope_of params streams }
    {
        ScopeNames {
            params,
            variables: NameIndex::new(alloc),
            streams,
        }
    }

    /// The slot of a parameter or a variable.
    fn slot(&self, name: &[u8]) -> Option<usize>
        ensures { result ≡ place_of name.now (slots_in self.now) }
    {
        match self.param(name) {
            Some(slot) => Some(slot),
            None => self.variable(name),
        }
    }

    /// The slot of a parameter.
    fn param(&self, name: &[u8]) -> Option<usize>
        ensures { result ≡ place_of name.now self.now.params }
    {
        self.params.place_of(name)
    }

    /// The slot of a variable.
    fn variable(&self, name: &[u8]) -> Option<usize>
        ensures { result ≡ variable_slot name.now self.now }
    {
        match self.variables.place_of(name) {
            Some(place) => Some(self.params.len() + place),
            None => None,
        }
    }

    /// The number of a stream.
    fn stream(&self, name: &[u8]) -> Option<usize>
        ensures { result ≡ place_of name.now self.now.streams }
    {
        self.streams.place_of(name)
    }

    fn variable_count(&self) -> usize
        ensures { result ≡ length self.now.variables }
    {
        self.variables.len()
    }

    /// Adds variables of these names.
    fn enter(&mut self, alloc: Global, idents: &[Ident]) -> Result<(), Memory>
        ensures { OnOk result (self.new ≡ with_names (map ident_text idents.now) self.old) }
    {
        push_all(&mut self.variables, alloc, idents)
    }

    /// Adds a variable.
    fn declare(&mut self, alloc: Global, ident: &Ident) -> Result<(), Memory>
        ensures { OnOk result (self.new ≡ with_names (ident.now.text ∷ []) self.old) }
    {
        self.variables.push(alloc, &ident.text)
    }

    /// Forgets the variables past this many.
    fn leave(&mut self, variables: usize)
        ensures { self.new ≡ cut_back variables self.old }
    {
        self.variables.truncate(variables);
    }
}

/// The expression that reads a slot, where the name has one.
fn read_of(slot: Option<usize>) -> ResolvedExpr
    ensures { result ≡ slot_of slot }
{
    match slot {
        Some(slot) => ResolvedExpr::Slot(slot),
        None => ResolvedExpr::Unresolved,
    }
}

/// The call of an operation, where there is one of the name.
fn call_to(operation: Option<Operation>, args: Items<ResolvedExpr>) -> ResolvedExpr
    ensures { result ≡ call_of operation args }
{
    match operation {
        Some(operation) => ResolvedExpr::Call(operation, args),
        None => ResolvedExpr::Unresolved,
    }
}

/// An expression under the names in scope.
#[cycle(expression)]
fn resolve_expr(alloc: Global, scope: &ScopeNames, expr: &Expr) -> Result<ResolvedExpr, Memory>
    ensures { IfOk result (λ made. made ≡ resolved (slots_in scope.now) expr.now) }
{
    match expr {
        Expr::Int { value, .. } => Ok(ResolvedExpr::Int(*value)),
        Expr::Text { value, .. } => Ok(ResolvedExpr::Text(value.copy(alloc)?)),
        Expr::Round { .. } => Ok(ResolvedExpr::Round),
        Expr::Name(name) => Ok(read_of(scope.slot(name.text.as_slice()))),
        Expr::Call { name, args } => {
            let args = resolve_exprs(alloc, scope, args.as_slice())?;
            Ok(call_to(operation_named(name.text.as_slice()), args))
        }
    }
}

/// Expressions, each under the names in scope.
#[cycle(expression)]
fn resolve_exprs(
    alloc: Global,
    scope: &ScopeNames,
    exprs: &[Expr],
) -> Result<Items<ResolvedExpr>, Memory>
    ensures { IfOk result (λ made. made ≡ map (resolved (slots_in scope.now)) exprs.now) }
{
    let mut made = Items::new(alloc);
    'exprs: for expr in exprs {
        made.push(resolve_expr(alloc, scope, expr)?)?;
    }
    Ok(made)
}

/// A statement under the names in scope, to which a `let` adds its own.
#[cycle(statement)]
fn resolve_statement(
    alloc: Global,
    scope: &mut ScopeNames,
    statement: &Statement,
) -> Result<ResolvedStatement, Memory>
    ensures made { IfOk result (λ made. made ≡ statement_resolved scope.old statement.now) }
    ensures scope { OnOk result (scope.new ≡ scope_after scope.old statement.now) }
{
    match statement {
        Statement::Let { name, value } => {
            let value = resolve_expr(alloc, scope, value)?;
            scope.declare(alloc, name)?;
            Ok(ResolvedStatement::Let(value))
        }
        Statement::Set { name, value } => {
            let value = resolve_expr(alloc, scope, value)?;
            Ok(set_to(scope.variable(name.text.as_slice()), value))
        }
        Statement::If { test, yes, no } => {
            let test = resolve_expr(alloc, scope, test)?;
            let yes = resolve_block(alloc, scope, yes.as_slice())?;
            let no = resolve_else(alloc, scope, no)?;
            Ok(ResolvedStatement::If { test, yes, no })
        }
        Statement::For {
            names,
            stream,
            body,
        } => resolve_for(alloc, scope, names, stream, body),
        Statement::Emit { args, .. } => {
            Ok(ResolvedStatement::Emit(resolve_exprs(alloc, scope, args.as_slice())?))
        }
        Statement::Give { value, .. } => Ok(ResolvedStatement::Give(resolve_expr(
            alloc, scope, value,
        )?)),
    }
}

/// The statement that sets a slot, where the name has one.
fn set_to(slot: Option<usize>, value: ResolvedExpr) -> ResolvedStatement
    ensures { result ≡ set_in slot value }
{
    match slot {
        Some(slot) => ResolvedStatement::Set(slot, value),
        None => ResolvedStatement::Unresolved,
    }
}

/// The block of an `else`, empty where there is none.
#[cycle(statement)]
fn resolve_else(
    alloc: Global,
    scope: &mut ScopeNames,
    no: &Option<Block>,
) -> Result<Items<ResolvedStatement>, Memory>
    ensures made { IfOk result (λ made. made ≡ other_resolved scope.old no.now) }
    ensures scope { OnOk result (scope.new ≡ scope.old) }
{
    match no {
        Some(block) => resolve_block(alloc, scope, block.as_slice()),
        None => Ok(Items::new(alloc)),
    }
}

/// A `for`, whose names are in scope in its body alone.
#[cycle(statement)]
fn resolve_for(
    alloc: Global,
    scope: &mut ScopeNames,
    names: &Items<Ident>,
    stream: &Ident,
    body: &Block,
) -> Result<ResolvedStatement, Memory>
    ensures made { IfOk result (λ made. made ≡ for_of (place_of stream.now.text scope.old.streams) (length names.now) (all_resolved (with_names (map ident_text names.now) scope.old) body.now)) }
    ensures scope { OnOk result (scope.new ≡ scope.old) }
{
    let before = scope.variable_count();
    scope.enter(alloc, names.as_slice())?;
    let body = resolve_block(alloc, scope, body.as_slice())?;
    scope.leave(before);
    Ok(loop_over(scope.stream(stream.text.as_slice()), names.len(), body))
}

/// The loop over a stream, where there is one of the name.
fn loop_over(
    stream: Option<usize>,
    fields: usize,
    body: Items<ResolvedStatement>,
) -> ResolvedStatement
    ensures { result ≡ for_of stream fields body }
{
    match stream {
        Some(stream) => ResolvedStatement::For {
            stream,
            fields,
            body,
        },
        None => ResolvedStatement::Unresolved,
    }
}

/// The statements of a block, which leaves its variables behind it.
#[cycle(statement)]
fn resolve_block(
    alloc: Global,
    scope: &mut ScopeNames,
    block: &[Statement],
) -> Result<Items<ResolvedStatement>, Memory>
    ensures made { IfOk result (λ made. made ≡ all_resolved scope.old block.now) }
    ensures scope { OnOk result (scope.new ≡ scope.old) }
{
    let before = scope.variable_count();
    let made = resolve_statements(alloc, scope, block)?;
    scope.leave(before);
    Ok(made)
}

/// Statements, each under the names that those before it leave in scope.
#[cycle(statement)]
fn resolve_statements(
    alloc: Global,
    scope: &mut ScopeNames,
    statements: &[Statement],
) -> Result<Items<ResolvedStatement>, Memory>
    ensures made { IfOk result (λ made. made ≡ all_resolved scope.old statements.now) }
    ensures scope { OnOk result (scope.new ≡ scope_behind scope.old statements.now) }
{
    let mut made = Items::new(alloc);
    'statements: for statement in statements {
        made.push(resolve_statement(alloc, scope, statement)?)?;
    }
    Ok(made)
}

/// The names of these.
fn names_of<T: Named>(alloc: Global, items: &[T]) -> Result<NameIndex, Memory>
    ensures { IfOk result (λ names. names ≡ map T.name items.now) }
{
    let mut names = NameIndex::new(alloc);
    push_all(&mut names, alloc, items)?;
    Ok(names)
}

fn names_of_one(alloc: Global, param: &Param) -> Result<NameIndex, Memory>
    ensures { IfOk result (λ names. names ≡ param_text param.now ∷ []) }
{
    let mut names = NameIndex::new(alloc);
    names.push(alloc, param.name())?;
    Ok(names)
}

fn names_of_two(alloc: Global, one: &Stream, other: &Stream) -> Result<NameIndex, Memory>
    ensures { IfOk result (λ names. names ≡ stream_text one.now ∷ stream_text other.now ∷ []) }
{
    let mut names = NameIndex::new(alloc);
    names.push(alloc, one.name())?;
    names.push(alloc, other.name())?;
    Ok(names)
}

/// The body of a function.
fn resolve_body(
    alloc: Global,
    params: NameIndex,
    streams: NameIndex,
    body: &Block,
) -> Result<Items<ResolvedStatement>, Memory>
    ensures { IfOk result (λ made. made ≡ all_resolved (scope_of params streams) body.now) }
{
    let mut scope = ScopeNames::new(alloc, params, streams);
    resolve_statements(alloc, &mut scope, body.as_slice())
}

/// A function with slots in place of names.
pub(crate) fn resolve_function(
    alloc: Global,
    function: &Function,
) -> Result<ResolvedFunction, Memory>
    ensures { IfOk result (λ made. made ≡ function_resolved function.now) }
{
    match function {
        Function::Map { params, body, .. } => {
            let names = names_of(alloc, params.as_slice())?;
            let body = resolve_body(alloc, names, NameIndex::new(alloc), body)?;
            Ok(ResolvedFunction::Map {
                params: params.len(),
                body,
            })
        }
        Function::Reduce {
            key,
            streams,
            body,
            ..
        } => {
            let names = names_of(alloc, streams.as_slice())?;
            let body = resolve_body(alloc, names_of_one(alloc, key)?, names, body)?;
            Ok(ResolvedFunction::Reduce {
                streams: streams.len(),
                body,
            })
        }
        Function::Distance {
            key,
            before,
            after,
            body,
            ..
        } => {
            let names = names_of_two(alloc, before, after)?;
            let body = resolve_body(alloc, names_of_one(alloc, key)?, names, body)?;
            Ok(ResolvedFunction::Distance { body })
        }
        Function::Partition { key, body, .. } => {
            let key = names_of_one(alloc, key)?;
            let body = resolve_body(alloc, key, NameIndex::new(alloc), body)?;
            Ok(ResolvedFunction::Partition { body })
        }
    }
}
