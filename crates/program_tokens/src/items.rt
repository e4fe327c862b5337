ghost use Rattle.std.specs.Prelude.{◌≡◌, ◌<◌, Bool, List, length, OnOk};
ghost use Rattle.program_tokens.specs.declared.token.Token.{Token};
ghost use Rattle.program_tokens.specs.steps.Parsers as parsers;
ghost use Rattle.program_tokens.specs.steps.Parsers.{Parser, Reads};

use crate::fault::SyntaxFault;
use crate::readers::{eat, expect, ident};
use crate::token::Ident;
use crate::tokens::Tokens;
use hal_base::Kind;
use sqlite_items::Items;
use std::alloc::Global;

/// What is read one after another.
pub trait Item: Sized + Drop {
    ghost reader: { Parser Self };

    /// It takes at least one token.
    fn read(alloc: Global, tokens: &mut Tokens) -> Result<Self, SyntaxFault>
        ensures reads { Reads (reader tokens.old) result tokens.new }
        ensures shorter { OnOk result (length tokens.new < length tokens.old) };
}

/// What is read as long as the next token begins it.
pub trait Repeated: Item {
    ghost begun_by: { List Token → Bool };

    fn comes_next(tokens: &Tokens) -> bool
        ensures { result ≡ begun_by tokens.now };
}

/// Reads items as long as one comes next, and adds them to those found.
pub fn read_repeated<T: Repeated>(
    alloc: Global,
    tokens: &mut Tokens,
    found: Items<T>,
) -> Result<Items<T>, SyntaxFault>
    ensures { Reads (parsers.repeated T.begun_by T.reader found tokens.old) result tokens.new }
{
    let mut all = found;
    'items: while T::comes_next(tokens) {
        all.push(T::read(alloc, tokens)?)?;
    }
    Ok(all)
}

/// Reads one item or more, with commas between.
pub fn separated<T: Item>(alloc: Global, tokens: &mut Tokens) -> Result<Items<T>, SyntaxFault>
    ensures { Reads (parsers.separated T.reader tokens.old) result tokens.new }
{
    let mut found = Items::new(alloc);
    'items: loop {
        found.push(T::read(alloc, tokens)?)?;
        if !eat(alloc, tokens, b",")? {
            return Ok(found);
        }
    }
}

/// Reads items, perhaps none, with commas between, and the `)` behind them.
#[tactic(auto, unfolding(crate::specs::steps::Parsers::closed))]
pub fn closed<T: Item>(alloc: Global, tokens: &mut Tokens) -> Result<Items<T>, SyntaxFault>
    ensures { Reads (parsers.closed T.reader tokens.old) result tokens.new }
{
    if eat(alloc, tokens, b")")? {
        return Ok(Items::new(alloc));
    }
    let found = separated(alloc, tokens)?;
    expect(alloc, tokens, b")")?;
    Ok(found)
}

impl Item for Ident {
    ghost use Rattle.program_tokens.specs.steps.Parsers.{ident as ident_reader};

    ghost reader = { ident_reader };

    #[tactic(auto, using(crate::proofs::Shorter::ident_shorter))]
    fn read(alloc: Global, tokens: &mut Tokens) -> Result<Ident, SyntaxFault> {
        ident(alloc, tokens)
    }
}

impl Item for Kind {
    ghost use Rattle.program_tokens.specs.steps.Parsers.{kind};

    ghost reader = { kind };

    #[tactic(auto, using(crate::proofs::Shorter::kind_shorter))]
    fn read(alloc: Global, tokens: &mut Tokens) -> Result<Kind, SyntaxFault> {
        kind(alloc, tokens)
    }
}

/// Reads `int` or `text`.
#[tactic(auto, unfolding(crate::specs::steps::Parsers::kind))]
pub fn kind(alloc: Global, tokens: &mut Tokens) -> Result<Kind, SyntaxFault>
    ensures { Reads (parsers.kind tokens.old) result tokens.new }
{
    if eat(alloc, tokens, b"int")? {
        return Ok(Kind::Int);
    }
    expect(alloc, tokens, b"text")?;
    Ok(Kind::Text)
}

/// Reads kinds between parentheses.
#[tactic(auto, unfolding(crate::specs::steps::Parsers::kinds))]
pub fn kinds(alloc: Global, tokens: &mut Tokens) -> Result<Items<Kind>, SyntaxFault>
    ensures { Reads (parsers.kinds tokens.old) result tokens.new }
{
    expect(alloc, tokens, b"(")?;
    closed(alloc, tokens)
}
