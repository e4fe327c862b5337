ghost use Rattle.std.specs.Prelude.{◌≡◌, is_some};
ghost use Rattle.program_tokens.specs.declared.fault.SyntaxFault.TheVariants.{At};
ghost use Rattle.program_tokens.specs.steps.Parsers as parsers;
ghost use Rattle.program_tokens.specs.steps.Parsers.{Reads};
ghost use Rattle.program_tokens.specs.steps.Front as front;

use crate::fault::SyntaxFault;
use crate::token::{Ident, Lexeme, Number, Token};
use crate::tokens::Tokens;
use crate::words::is_name_text;
use hal_base::Text;
use std::alloc::Global;

/// The fault at the next token.
pub fn refused(tokens: &Tokens) -> SyntaxFault
    ensures { result ≡ At (front.line_of tokens.now) }
{
    SyntaxFault::At {
        line: tokens.line(),
    }
}

/// Takes this word or mark, if it comes next.
#[tactic(auto, using(crate::proofs::Fronts::seen_goes_on), unfolding(crate::specs::steps::Parsers::eat))]
pub fn eat(alloc: Global, tokens: &mut Tokens, word: &[u8]) -> Result<bool, SyntaxFault>
    ensures { Reads (parsers.eat word.now tokens.old) result tokens.new }
{
    let found = tokens.sees(word);
    if found {
        tokens.skip(alloc)?;
    }
    Ok(found)
}

/// Takes this word or mark, which must come next.
#[tactic(auto, using(crate::proofs::Fronts::seen_goes_on), unfolding(crate::specs::steps::Parsers::expect))]
pub fn expect(alloc: Global, tokens: &mut Tokens, word: &[u8]) -> Result<(), SyntaxFault>
    ensures { Reads (parsers.expect word.now tokens.old) result tokens.new }
{
    if !tokens.sees(word) {
        return Err(refused(tokens));
    }
    tokens.skip(alloc)?;
    Ok(())
}

/// Takes this word or mark, which must come next, and tells its line.
#[tactic(auto, using(crate::proofs::Fronts::seen_goes_on), unfolding(crate::specs::steps::Parsers::expect_line))]
pub fn expect_line(alloc: Global, tokens: &mut Tokens, word: &[u8]) -> Result<u64, SyntaxFault>
    ensures { Reads (parsers.expect_line word.now tokens.old) result tokens.new }
{
    if !tokens.sees(word) {
        return Err(refused(tokens));
    }
    let line = tokens.line();
    tokens.skip(alloc)?;
    Ok(line)
}

/// Takes a name, which must come next.
#[tactic(auto, using(crate::proofs::Fronts::ident_is), unfolding(crate::specs::steps::Parsers::ident))]
pub fn ident(alloc: Global, tokens: &mut Tokens) -> Result<Ident, SyntaxFault>
    ensures { Reads (parsers.ident tokens.old) result tokens.new }
{
    if !sees_ident(tokens) {
        return Err(refused(tokens));
    }
    let Token { lexeme, line } = tokens.take(alloc)?;
    match lexeme {
        Lexeme::Plain(text) => Ok(Ident { text, line }),
        _ => unreachable!(),
    }
}

/// Whether a name comes next.
fn sees_ident(tokens: &Tokens) -> bool
    ensures { result ≡ is_some (parsers.ident_at tokens.now) }
{
    match &tokens.peek().lexeme {
        Lexeme::Plain(word) => is_name_text(word.as_slice()),
        _ => false,
    }
}

/// Takes a number that is not negative, which must come next.
pub fn natural(alloc: Global, tokens: &mut Tokens) -> Result<Number, SyntaxFault>
    ensures { Reads (parsers.natural tokens.old) result tokens.new }
{
    if !sees_natural(tokens) {
        return Err(refused(tokens));
    }
    let token = tokens.take(alloc)?;
    match natural_of(&token) {
        Some(number) => Ok(number),
        None => unreachable!(),
    }
}

/// The number that a token is, unless it is negative.
fn natural_of(token: &Token) -> Option<Number>
    ensures { result ≡ parsers.natural_in token.now.line token.now.lexeme }
{
    match &token.lexeme {
        Lexeme::Int(value) if *value >= 0 => Some(Number {
            value: *value,
            line: token.line,
        }),
        _ => None,
    }
}

/// Whether a number comes next that is not negative.
fn sees_natural(tokens: &Tokens) -> bool
    ensures { result ≡ is_some (parsers.natural_at tokens.now) }
{
    natural_of(tokens.peek()).is_some()
}

/// Takes a text, which must come next.
pub fn quoted(alloc: Global, tokens: &mut Tokens) -> Result<Text, SyntaxFault>
    ensures { Reads (parsers.quoted tokens.old) result tokens.new }
{
    if !sees_quoted(tokens) {
        return Err(refused(tokens));
    }
    match tokens.take(alloc)?.lexeme {
        Lexeme::Quoted(text) => Ok(text),
        _ => unreachable!(),
    }
}

/// Whether a text comes next.
fn sees_quoted(tokens: &Tokens) -> bool
    ensures { result ≡ is_some (parsers.quoted_at tokens.now) }
{
    match &tokens.peek().lexeme {
        Lexeme::Quoted(_) => true,
        _ => false,
    }
}

/// Whether the end comes next.
pub fn sees_end(tokens: &Tokens) -> bool
    ensures { result ≡ front.at_end tokens.now }
{
    match &tokens.peek().lexeme {
        Lexeme::End => true,
        _ => false,
    }
}
