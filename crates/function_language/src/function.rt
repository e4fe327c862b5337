ghost use Rattle.std.specs.Prelude.{◌≡◌};
ghost use Rattle.program_tokens.specs.steps.Parsers.{Reads};
ghost use Rattle.function_language.specs.steps.Reading as reading;

use crate::signature::{before, listed};
use crate::statement::block;
use crate::tree::{Block, Function, Param, Row, Stream, Tree};
use program_tokens::{
    Ident, Item, Repeated, SyntaxFault, Tokens, eat, expect, expect_line, kinds, read_repeated,
};
use sqlite_items::Items;
use std::alloc::Global;

/// How many blocks and calls may be open at once. docs/LANGUAGE.md, "Functions".
pub const DEPTH: u32 = 32;

/// The name of a function and its key.
#[derive(Drop)]
struct Head {
    name: Ident,
    key: Param,
}

/// What a function emits, behind an arrow in this line, and its body.
#[derive(Drop)]
struct Tail {
    arrow: u64,
    out: Row,
    body: Block,
}

/// Reads functions as long as one comes next. docs/LANGUAGE.md, "Functions".
#[tactic(auto, using(crate::proofs::Places::read_spelled))]
pub fn functions(alloc: Global, tokens: &mut Tokens) -> Result<Tree, SyntaxFault>
    ensures { Reads (reading.functions tokens.old) result tokens.new }
{
    // Each token that is left can be spelled, so what is read of them can be.
    let _next = tokens.peek();
    let found = read_repeated(alloc, tokens, Items::new(alloc))?;
    Ok(Tree::new(found))
}

impl Item for Function {
    ghost use Rattle.function_language.specs.steps.Reading.{function as function_reader};

    ghost reader = { function_reader };

    #[tactic(auto, using(crate::proofs::Shorter::function_shorter))]
    fn read(alloc: Global, tokens: &mut Tokens) -> Result<Function, SyntaxFault> {
        function(alloc, tokens)
    }
}

impl Repeated for Function {
    ghost use Rattle.function_language.specs.steps.Reading.{begins_function};

    ghost begun_by = { begins_function };

    fn comes_next(tokens: &Tokens) -> bool {
        tokens.sees(b"map")
            || tokens.sees(b"reduce")
            || tokens.sees(b"distance")
            || tokens.sees(b"partition")
    }
}

/// Reads a function.
#[tactic(auto, unfolding(crate::specs::steps::Reading::function))]
fn function(alloc: Global, tokens: &mut Tokens) -> Result<Function, SyntaxFault>
    ensures { Reads (reading.function tokens.old) result tokens.new }
{
    if eat(alloc, tokens, b"map")? {
        return map_function(alloc, tokens);
    }
    if eat(alloc, tokens, b"reduce")? {
        return reduce_function(alloc, tokens);
    }
    if eat(alloc, tokens, b"distance")? {
        return distance_function(alloc, tokens);
    }
    expect(alloc, tokens, b"partition")?;
    partition_function(alloc, tokens)
}

/// Reads a map behind the word.
#[tactic(auto, unfolding(crate::specs::steps::Reading::map_function))]
fn map_function(alloc: Global, tokens: &mut Tokens) -> Result<Function, SyntaxFault>
    ensures { Reads (reading.map_function tokens.old) result tokens.new }
{
    let name = before(alloc, tokens, b"(")?;
    let params = listed(alloc, tokens)?;
    let tail = read_tail(alloc, tokens)?;
    Ok(Function::Map {
        name,
        params,
        arrow: tail.arrow,
        out: tail.out,
        body: tail.body,
    })
}

/// Reads a reduce behind the word.
#[tactic(auto, unfolding(crate::specs::steps::Reading::reduce_function))]
fn reduce_function(alloc: Global, tokens: &mut Tokens) -> Result<Function, SyntaxFault>
    ensures { Reads (reading.reduce_function tokens.old) result tokens.new }
{
    let head = read_head(alloc, tokens, b";")?;
    let streams = listed(alloc, tokens)?;
    let tail = read_tail(alloc, tokens)?;
    Ok(Function::Reduce {
        name: head.name,
        key: head.key,
        streams,
        arrow: tail.arrow,
        out: tail.out,
        body: tail.body,
    })
}

/// Reads a distance behind the word.
#[tactic(auto, unfolding(crate::specs::steps::Reading::distance_function))]
fn distance_function(alloc: Global, tokens: &mut Tokens) -> Result<Function, SyntaxFault>
    ensures { Reads (reading.distance_function tokens.old) result tokens.new }
{
    let head = read_head(alloc, tokens, b";")?;
    let streams = compared(alloc, tokens)?;
    let body = body(alloc, tokens)?;
    Ok(Function::Distance {
        name: head.name,
        key: head.key,
        before: streams.0,
        after: streams.1,
        body,
    })
}

/// Reads a partition behind the word.
#[tactic(auto, unfolding(crate::specs::steps::Reading::partition_function))]
fn partition_function(alloc: Global, tokens: &mut Tokens) -> Result<Function, SyntaxFault>
    ensures { Reads (reading.partition_function tokens.old) result tokens.new }
{
    let head = read_head(alloc, tokens, b")")?;
    let body = body(alloc, tokens)?;
    Ok(Function::Partition {
        name: head.name,
        key: head.key,
        body,
    })
}

/// Reads the name of a function and its key, and the mark behind this.
#[tactic(auto, unfolding(crate::specs::steps::Reading::head))]
fn read_head(alloc: Global, tokens: &mut Tokens, mark: &[u8]) -> Result<Head, SyntaxFault>
    ensures { Reads (reading.head mark.now tokens.old) result tokens.new }
{
    let name = before(alloc, tokens, b"(")?;
    let key = before(alloc, tokens, mark)?;
    Ok(Head { name, key })
}

/// Reads the two streams of a distance, and the `)` behind them.
#[tactic(auto, unfolding(crate::specs::steps::Reading::compared))]
fn compared(alloc: Global, tokens: &mut Tokens) -> Result<(Stream, Stream), SyntaxFault>
    ensures { Reads (reading.compared tokens.old) result tokens.new }
{
    let old = before(alloc, tokens, b",")?;
    let new = before(alloc, tokens, b")")?;
    Ok((old, new))
}

/// Reads what a function emits, and its body.
#[tactic(auto, unfolding(crate::specs::steps::Reading::tail))]
fn read_tail(alloc: Global, tokens: &mut Tokens) -> Result<Tail, SyntaxFault>
    ensures { Reads (reading.tail tokens.old) result tokens.new }
{
    let arrow = expect_line(alloc, tokens, b"->")?;
    let kinds = kinds(alloc, tokens)?;
    let body = body(alloc, tokens)?;
    Ok(Tail {
        arrow,
        out: Row { kinds },
        body,
    })
}

/// Reads the body of a function.
#[tactic(auto, unfolding(crate::specs::steps::Reading::body))]
fn body(alloc: Global, tokens: &mut Tokens) -> Result<Block, SyntaxFault>
    ensures { Reads (reading.body tokens.old) result tokens.new }
{
    block(alloc, tokens, DEPTH)
}
