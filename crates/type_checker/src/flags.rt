ghost use Rattle.std.specs.Prelude.{◌≡◌};
ghost use Rattle.std.specs.List.{list_all, list_any};
ghost use Rattle.type_checker.specs.Flags as flags;
ghost use Rattle.type_checker.specs.Flags.{emits_first, first_is, has_round, is_name, uses_round};
ghost use Rattle.type_checker.specs.steps.Flags.{other_emits_first, other_uses_round};

use function_language::{Block, Expr, Function, Statement};

/// Whether `round` stands in the body of a function.
pub fn function_uses_round(function: &Function) -> bool
    ensures { result ≡ flags.function_uses_round function.now }
{
    match function {
        Function::Map { body, .. }
        | Function::Reduce { body, .. }
        | Function::Distance { body, .. }
        | Function::Partition { body, .. } => any_uses_round(body.as_slice()),
    }
}

/// Whether `round` stands in one of these.
#[cycle(round_in_expressions)]
fn any_has_round(exprs: &[Expr]) -> bool
    ensures { result ≡ list_any has_round exprs.now }
{
    'exprs: for expr in exprs {
        if expr_has_round(expr) {
            return true;
        }
    }
    false
}

#[cycle(round_in_expressions)]
fn expr_has_round(expr: &Expr) -> bool
    ensures { result ≡ has_round expr.now }
{
    match expr {
        Expr::Round { .. } => true,
        Expr::Call { args, .. } => any_has_round(args.as_slice()),
        Expr::Int { .. } | Expr::Text { .. } | Expr::Name(_) => false,
    }
}

/// Whether `round` stands in one of these.
#[cycle(round_in_statements)]
fn any_uses_round(statements: &[Statement]) -> bool
    ensures { result ≡ list_any uses_round statements.now }
{
    'statements: for statement in statements {
        if statement_uses_round(statement) {
            return true;
        }
    }
    false
}

#[cycle(round_in_statements)]
fn statement_uses_round(statement: &Statement) -> bool
    ensures { result ≡ uses_round statement.now }
{
    match statement {
        Statement::Let { value, .. }
        | Statement::Set { value, .. }
        | Statement::Give { value, .. } => expr_has_round(value),
        Statement::If { test, yes, no } => {
            expr_has_round(test) || any_uses_round(yes.as_slice()) || else_uses_round(no)
        }
        Statement::For { body, .. } => any_uses_round(body.as_slice()),
        Statement::Emit { args, .. } => any_has_round(args.as_slice()),
    }
}

#[cycle(round_in_statements)]
fn else_uses_round(no: &Option<Block>) -> bool
    ensures { result ≡ other_uses_round no.now }
{
    match no {
        Some(block) => any_uses_round(block.as_slice()),
        None => false,
    }
}

/// Whether a function is a reduce that emits its key parameter first, wherever it emits.
pub fn keeps_its_key(function: &Function) -> bool
    ensures { result ≡ flags.keeps_its_key function.now }
{
    match function {
        Function::Reduce { key, body, .. } => {
            all_emit_first(key.name.text.as_slice(), body.as_slice())
        }
        Function::Map { .. } | Function::Distance { .. } | Function::Partition { .. } => false,
    }
}

/// Whether the first argument of each `emit` in these is this name.
#[cycle(first_in_statements)]
fn all_emit_first(name: &[u8], statements: &[Statement]) -> bool
    ensures { result ≡ list_all (emits_first name.now) statements.now }
{
    'statements: for statement in statements {
        if !emits_name_first(name, statement) {
            return false;
        }
    }
    true
}

#[cycle(first_in_statements)]
fn emits_name_first(name: &[u8], statement: &Statement) -> bool
    ensures { result ≡ emits_first name.now statement.now }
{
    match statement {
        Statement::If { yes, no, .. } => {
            all_emit_first(name, yes.as_slice()) && else_emits_first(name, no)
        }
        Statement::For { body, .. } => all_emit_first(name, body.as_slice()),
        Statement::Emit { args, .. } => begins_with_name(name, args.as_slice()),
        Statement::Let { .. } | Statement::Set { .. } | Statement::Give { .. } => true,
    }
}

#[cycle(first_in_statements)]
fn else_emits_first(name: &[u8], no: &Option<Block>) -> bool
    ensures { result ≡ other_emits_first name.now no.now }
{
    match no {
        Some(block) => all_emit_first(name, block.as_slice()),
        None => true,
    }
}

fn begins_with_name(name: &[u8], args: &[Expr]) -> bool
    ensures { result ≡ first_is name.now args.now }
{
    match args {
        [] => false,
        [first, ..] => is_this_name(name, first),
    }
}

fn is_this_name(name: &[u8], expr: &Expr) -> bool
    ensures { result ≡ is_name name.now expr.now }
{
    match expr {
        Expr::Name(other) => name == other.text.as_slice(),
        Expr::Int { .. } | Expr::Text { .. } | Expr::Round { .. } | Expr::Call { .. } => false,
    }
}
