ghost use Rattle.std.specs.Prelude.{◌≡◌, ◌<◌, length, is_some, OnOk};
ghost use Rattle.program_tokens.specs.steps.Parsers as parsers;
ghost use Rattle.program_tokens.specs.steps.Parsers.{Reads, closed, separated};
ghost use Rattle.function_language.specs.steps.Reading as reading;

use crate::signature::marked;
use crate::tree::{Expr, Exprs};
use program_tokens::{Ident, Lexeme, SyntaxFault, Token, Tokens, eat, expect, ident, refused};
use sqlite_items::Items;
use std::alloc::Global;

/// Reads an expression in which so many calls may still open.
#[cycle(expression)]
fn expr(alloc: Global, tokens: &mut Tokens, depth: u32) -> Result<Expr, SyntaxFault>
    ensures { Reads (reading.expr depth tokens.old) result tokens.new }
{
    if let Some(found) = literal(alloc, tokens)? {
        return Ok(found);
    }
    named(alloc, tokens, depth)
}

/// Reads a name, or a call.
#[cycle(expression)]
#[tactic(auto, unfolding(crate::specs::steps::Reading::named))]
fn named(alloc: Global, tokens: &mut Tokens, depth: u32) -> Result<Expr, SyntaxFault>
    ensures { Reads (reading.named (reading.call depth) tokens.old) result tokens.new }
{
    let name = ident(alloc, tokens)?;
    if !tokens.sees(b"(") {
        return Ok(Expr::Name(name));
    }
    call(alloc, tokens, depth, name)
}

/// Reads a call behind its name.
#[cycle(expression)]
#[tactic(auto, unfolding(crate::specs::steps::Reading::call_of))]
fn call(alloc: Global, tokens: &mut Tokens, depth: u32, name: Ident) -> Result<Expr, SyntaxFault>
    ensures { Reads (reading.call depth name tokens.old) result tokens.new }
{
    if depth == 0 {
        return Err(refused(tokens));
    }
    expect(alloc, tokens, b"(")?;
    let args = arguments(alloc, tokens, depth - 1)?;
    Ok(Expr::Call { name, args })
}

/// Reads expressions, perhaps none, and the `)` behind them.
#[cycle(expression)]
pub(crate) fn arguments(
    alloc: Global,
    tokens: &mut Tokens,
    depth: u32,
) -> Result<Exprs, SyntaxFault>
    ensures { Reads (closed (reading.expr depth) tokens.old) result tokens.new }
{
    if eat(alloc, tokens, b")")? {
        return Ok(Items::new(alloc));
    }
    let args = some_arguments(alloc, tokens, depth)?;
    expect(alloc, tokens, b")")?;
    Ok(args)
}

/// Reads one expression or more, with commas between.
#[cycle(expression)]
fn some_arguments(alloc: Global, tokens: &mut Tokens, depth: u32) -> Result<Exprs, SyntaxFault>
    ensures { Reads (separated (reading.expr depth) tokens.old) result tokens.new }
{
    let mut args = Items::new(alloc);
    'args: loop {
        args.push(expr(alloc, tokens, depth)?)?;
        if !eat(alloc, tokens, b",")? {
            return Ok(args);
        }
    }
}

/// Reads an expression and the word or mark behind it.
#[tactic(auto, unfolding(crate::specs::steps::Reading::before))]
pub(crate) fn expr_before(
    alloc: Global,
    tokens: &mut Tokens,
    depth: u32,
    word: &[u8],
) -> Result<Expr, SyntaxFault>
    ensures { Reads (reading.before word.now (reading.expr depth) tokens.old) result tokens.new }
{
    let found = expr(alloc, tokens, depth)?;
    marked(alloc, tokens, word, found)
}

/// Reads an expression between parentheses.
#[tactic(auto, unfolding(crate::specs::steps::Reading::enclosed))]
pub(crate) fn enclosed(alloc: Global, tokens: &mut Tokens, depth: u32) -> Result<Expr, SyntaxFault>
    ensures { Reads (reading.enclosed (reading.expr depth) tokens.old) result tokens.new }
{
    expect(alloc, tokens, b"(")?;
    expr_before(alloc, tokens, depth, b")")
}

/// Takes a number, a text or `round`, if one comes next.
#[tactic(auto, unfolding(crate::specs::steps::Reading::literal))]
fn literal(alloc: Global, tokens: &mut Tokens) -> Result<Option<Expr>, SyntaxFault>
    ensures { Reads (reading.literal tokens.old) result tokens.new }
{
    if !sees_literal(tokens) {
        return Ok(None);
    }
    let Token { lexeme, line } = tokens.take(alloc)?;
    Ok(literal_of(lexeme, line))
}

/// Whether a number, a text or `round` comes next.
fn sees_literal(tokens: &Tokens) -> bool
    ensures { result ≡ is_some (reading.literal_at tokens.now) }
{
    match &tokens.peek().lexeme {
        Lexeme::Plain(word) => word.as_slice() == b"round".as_slice(),
        Lexeme::Int(_) | Lexeme::Quoted(_) => true,
        Lexeme::Bad | Lexeme::End => false,
    }
}

/// The expression that a token alone is, unless that is a name.
fn literal_of(lexeme: Lexeme, line: u64) -> Option<Expr>
    ensures { result ≡ reading.literal_in line lexeme }
{
    match lexeme {
        Lexeme::Plain(word) => {
            if word.as_slice() == b"round".as_slice() {
                Some(Expr::Round { line })
            } else {
                None
            }
        }
        Lexeme::Int(value) => Some(Expr::Int { line, value }),
        Lexeme::Quoted(value) => Some(Expr::Text { line, value }),
        Lexeme::Bad | Lexeme::End => None,
    }
}
