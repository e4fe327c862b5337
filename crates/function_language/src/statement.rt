ghost use Rattle.std.specs.Prelude.{◌≡◌};
ghost use Rattle.function_language.specs.declared.tree.Statement.TheVariants.{Let as a_let, Set as a_set};
ghost use Rattle.program_tokens.specs.steps.Parsers.{Reads};
ghost use Rattle.function_language.specs.steps.Reading as reading;

use crate::expression::{arguments, enclosed, expr_before};
use crate::signature::{before, marked};
use crate::tree::{Block, Statement};
use program_tokens::{SyntaxFault, Tokens, closed, eat, expect, ident, refused};
use sqlite_items::Items;
use std::alloc::Global;

/// Reads a block, which is the first of so many blocks and calls that may still open.
#[cycle(statement)]
pub(crate) fn block(alloc: Global, tokens: &mut Tokens, depth: u32) -> Result<Block, SyntaxFault>
    ensures { Reads (reading.block depth tokens.old) result tokens.new }
{
    if depth == 0 {
        return Err(refused(tokens));
    }
    expect(alloc, tokens, b"{")?;
    statements(alloc, tokens, depth - 1)
}

/// Reads the statements of a block and its `}`.
#[cycle(statement)]
fn statements(alloc: Global, tokens: &mut Tokens, depth: u32) -> Result<Block, SyntaxFault>
    ensures { Reads (reading.statements (reading.statement_of (reading.expr depth) (reading.block depth)) tokens.old) result tokens.new }
{
    let mut found = Items::new(alloc);
    'statements: while !eat(alloc, tokens, b"}")? {
        found.push(statement(alloc, tokens, depth)?)?;
    }
    Ok(found)
}

/// Reads a statement in which so many blocks and calls may open.
#[cycle(statement)]
#[tactic(auto, unfolding(crate::specs::steps::Reading::statement_of))]
fn statement(alloc: Global, tokens: &mut Tokens, depth: u32) -> Result<Statement, SyntaxFault>
    ensures { Reads (reading.statement_of (reading.expr depth) (reading.block depth) tokens.old) result tokens.new }
{
    if eat(alloc, tokens, b"let")? {
        return let_statement(alloc, tokens, depth);
    }
    if eat(alloc, tokens, b"set")? {
        return set_statement(alloc, tokens, depth);
    }
    if eat(alloc, tokens, b"if")? {
        return if_statement(alloc, tokens, depth);
    }
    if eat(alloc, tokens, b"for")? {
        return for_statement(alloc, tokens, depth);
    }
    result_statement(alloc, tokens, depth)
}

/// Reads a `let` behind the word.
#[tactic(auto, unfolding(crate::specs::steps::Reading::binding))]
fn let_statement(alloc: Global, tokens: &mut Tokens, depth: u32) -> Result<Statement, SyntaxFault>
    ensures { Reads (reading.binding (reading.expr depth) a_let tokens.old) result tokens.new }
{
    let name = before(alloc, tokens, b"=")?;
    let value = expr_before(alloc, tokens, depth, b";")?;
    Ok(Statement::Let { name, value })
}

/// Reads a `set` behind the word.
#[tactic(auto, unfolding(crate::specs::steps::Reading::binding))]
fn set_statement(alloc: Global, tokens: &mut Tokens, depth: u32) -> Result<Statement, SyntaxFault>
    ensures { Reads (reading.binding (reading.expr depth) a_set tokens.old) result tokens.new }
{
    let name = before(alloc, tokens, b"=")?;
    let value = expr_before(alloc, tokens, depth, b";")?;
    Ok(Statement::Set { name, value })
}

/// Reads an `if` behind the word.
#[cycle(statement)]
#[tactic(auto, unfolding(crate::specs::steps::Reading::if_statement))]
fn if_statement(alloc: Global, tokens: &mut Tokens, depth: u32) -> Result<Statement, SyntaxFault>
    ensures { Reads (reading.if_statement (reading.expr depth) (reading.block depth) tokens.old) result tokens.new }
{
    let test = enclosed(alloc, tokens, depth)?;
    let yes = block(alloc, tokens, depth)?;
    let no = other(alloc, tokens, depth)?;
    Ok(Statement::If { test, yes, no })
}

/// Reads what stands behind the block of an `if`: `else` and a block, or nothing.
#[cycle(statement)]
#[tactic(auto, unfolding(crate::specs::steps::Reading::other))]
fn other(alloc: Global, tokens: &mut Tokens, depth: u32) -> Result<Option<Block>, SyntaxFault>
    ensures { Reads (reading.other (reading.block depth) tokens.old) result tokens.new }
{
    if !eat(alloc, tokens, b"else")? {
        return Ok(None);
    }
    let found = block(alloc, tokens, depth)?;
    Ok(Some(found))
}

/// Reads a `for` behind the word.
#[cycle(statement)]
#[tactic(auto, unfolding(crate::specs::steps::Reading::for_statement))]
fn for_statement(alloc: Global, tokens: &mut Tokens, depth: u32) -> Result<Statement, SyntaxFault>
    ensures { Reads (reading.for_statement (reading.block depth) tokens.old) result tokens.new }
{
    expect(alloc, tokens, b"(")?;
    let names = closed(alloc, tokens)?;
    expect(alloc, tokens, b"in")?;
    let stream = ident(alloc, tokens)?;
    let body = block(alloc, tokens, depth)?;
    Ok(Statement::For {
        names,
        stream,
        body,
    })
}

/// Reads an `emit` or a `give`.
#[tactic(auto, unfolding(crate::specs::steps::Reading::result_statement))]
fn result_statement(
    alloc: Global,
    tokens: &mut Tokens,
    depth: u32,
) -> Result<Statement, SyntaxFault>
    ensures { Reads (reading.result_statement (reading.expr depth) tokens.old) result tokens.new }
{
    let line = tokens.line();
    if eat(alloc, tokens, b"emit")? {
        return emit_statement(alloc, tokens, depth, line);
    }
    expect(alloc, tokens, b"give")?;
    give_statement(alloc, tokens, depth, line)
}

/// Reads an `emit` behind the word, which stands in this line.
#[tactic(auto, unfolding(crate::specs::steps::Reading::emit_statement))]
fn emit_statement(
    alloc: Global,
    tokens: &mut Tokens,
    depth: u32,
    line: u64,
) -> Result<Statement, SyntaxFault>
    ensures { Reads (reading.emit_statement (reading.expr depth) line tokens.old) result tokens.new }
{
    expect(alloc, tokens, b"(")?;
    let args = arguments(alloc, tokens, depth)?;
    marked(alloc, tokens, b";", Statement::Emit { line, args })
}

/// Reads a `give` behind the word, which stands in this line.
#[tactic(auto, unfolding(crate::specs::steps::Reading::give_statement))]
fn give_statement(
    alloc: Global,
    tokens: &mut Tokens,
    depth: u32,
    line: u64,
) -> Result<Statement, SyntaxFault>
    ensures { Reads (reading.give_statement (reading.expr depth) line tokens.old) result tokens.new }
{
    let value = enclosed(alloc, tokens, depth)?;
    marked(alloc, tokens, b";", Statement::Give { line, value })
}
