// What the heads of functions are made of: parameters and streams, and what stands before a mark.
ghost use Rattle.std.specs.Prelude.{◌≡◌, ◌<◌, codes, length, OnOk};
ghost use Rattle.program_tokens.specs.steps.Parsers.{Reads, separated};
ghost use Rattle.function_language.specs.steps.Reading as reading;

use crate::tree::{Param, Stream};
use program_tokens::{Item, SyntaxFault, Tokens, expect, kind, kinds, separated};
use sqlite_items::Items;
use std::alloc::Global;

impl Item for Param {
    ghost use Rattle.function_language.specs.steps.Reading.{param as param_reader};

    ghost reader = { param_reader };

    #[tactic(auto, using(crate::proofs::Shorter::param_shorter))]
    fn read(alloc: Global, tokens: &mut Tokens) -> Result<Param, SyntaxFault> {
        param(alloc, tokens)
    }
}

impl Item for Stream {
    ghost use Rattle.function_language.specs.steps.Reading.{stream as stream_reader};

    ghost reader = { stream_reader };

    #[tactic(auto, using(crate::proofs::Shorter::stream_shorter))]
    fn read(alloc: Global, tokens: &mut Tokens) -> Result<Stream, SyntaxFault> {
        stream(alloc, tokens)
    }
}

/// Reads the word or mark behind what was found.
pub(crate) fn marked<T: Drop>(
    alloc: Global,
    tokens: &mut Tokens,
    word: &[u8],
    found: T,
) -> Result<T, SyntaxFault>
    ensures { Reads (reading.marked word.now found tokens.old) result tokens.new }
{
    expect(alloc, tokens, word)?;
    Ok(found)
}

/// Reads an item and the word or mark behind it.
#[tactic(auto, unfolding(crate::specs::steps::Reading::before))]
pub(crate) fn before<T: Item>(
    alloc: Global,
    tokens: &mut Tokens,
    word: &[u8],
) -> Result<T, SyntaxFault>
    ensures { Reads (reading.before word.now T.reader tokens.old) result tokens.new }
{
    let found = T::read(alloc, tokens)?;
    marked(alloc, tokens, word, found)
}

/// Reads one item or more, with commas between, and the `)` behind them.
#[tactic(auto, unfolding(crate::specs::steps::Reading::before))]
pub(crate) fn listed<T: Item>(alloc: Global, tokens: &mut Tokens) -> Result<Items<T>, SyntaxFault>
    ensures { Reads (reading.before (codes ")") (separated T.reader) tokens.old) result tokens.new }
{
    let found = separated(alloc, tokens)?;
    marked(alloc, tokens, b")", found)
}

/// Reads the name and the kind of a parameter.
#[tactic(auto, unfolding(crate::specs::steps::Reading::param))]
pub(crate) fn param(alloc: Global, tokens: &mut Tokens) -> Result<Param, SyntaxFault>
    ensures { Reads (reading.param tokens.old) result tokens.new }
{
    let name = before(alloc, tokens, b":")?;
    let kind = kind(alloc, tokens)?;
    Ok(Param { name, kind })
}

/// Reads the name and the kinds of a stream.
#[tactic(auto, unfolding(crate::specs::steps::Reading::stream))]
pub(crate) fn stream(alloc: Global, tokens: &mut Tokens) -> Result<Stream, SyntaxFault>
    ensures { Reads (reading.stream tokens.old) result tokens.new }
{
    let name = before(alloc, tokens, b":")?;
    let kinds = kinds(alloc, tokens)?;
    Ok(Stream { name, kinds })
}
