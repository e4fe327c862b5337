ghost use Rattle.std.specs.Prelude.{◌≡◌};
ghost use Rattle.program_tokens.specs.steps.Parsers.{Reads};
ghost use Rattle.program_sketch.specs.steps.Reading as reading;

use crate::sketch::{
    Asked, InputSketch, Sketch, StepSketch, StepSketches, StopSketch, TableSketch, TableSketches,
};
use function_language::{Row, Tree, functions};
use program_tokens::{
    Ident, Item, Number, Repeated, SyntaxFault, Tokens, eat, expect, expect_line, ident, kinds,
    natural, quoted, read_repeated,
};
use sqlite_items::Items;
use std::alloc::Global;

/// What stands above the tables.
#[derive(Drop)]
struct Head {
    name: Ident,
    parts: Number,
    rounds: Number,
    stop: StopSketch,
    asked: Asked,
}

/// Reads a program, but for the end.
#[tactic(auto, unfolding(crate::specs::steps::Reading::program))]
pub(crate) fn program(alloc: Global, tokens: &mut Tokens) -> Result<Sketch, SyntaxFault>
    ensures { Reads (reading.program tokens.old) result tokens.new }
{
    let head = read_head(alloc, tokens)?;
    let tables = tables(alloc, tokens)?;
    let functions = functions(alloc, tokens)?;
    let start = ident_line(alloc, tokens, b"begin")?;
    let steps = steps(alloc, tokens)?;
    Ok(sketch_of(head, tables, functions, start, steps))
}

fn sketch_of(
    head: Head,
    tables: TableSketches,
    functions: Tree,
    start: Ident,
    steps: StepSketches,
) -> Sketch
    ensures { result ≡ reading.sketch_of head tables functions start steps }
{
    Sketch {
        name: head.name,
        parts: head.parts,
        rounds: head.rounds,
        stop: head.stop,
        asked: head.asked,
        tables,
        functions,
        start,
        steps,
    }
}

/// Reads what stands above the tables.
#[tactic(auto, unfolding(crate::specs::steps::Reading::head))]
fn read_head(alloc: Global, tokens: &mut Tokens) -> Result<Head, SyntaxFault>
    ensures { Reads (reading.head tokens.old) result tokens.new }
{
    let name = ident_line(alloc, tokens, b"program")?;
    let parts = natural_line(alloc, tokens, b"parts")?;
    let rounds = natural_line(alloc, tokens, b"rounds")?;
    let stop = stop_line(alloc, tokens)?;
    let asked = asked(alloc, tokens)?;
    Ok(Head {
        name,
        parts,
        rounds,
        stop,
        asked,
    })
}

/// Reads this word, a name and `;`.
#[tactic(auto, unfolding(crate::specs::steps::Reading::ident_line))]
fn ident_line(alloc: Global, tokens: &mut Tokens, word: &[u8]) -> Result<Ident, SyntaxFault>
    ensures { Reads (reading.ident_line word.now tokens.old) result tokens.new }
{
    expect(alloc, tokens, word)?;
    let name = ident(alloc, tokens)?;
    expect(alloc, tokens, b";")?;
    Ok(name)
}

/// Reads this word, a number and `;`.
#[tactic(auto, unfolding(crate::specs::steps::Reading::natural_line))]
fn natural_line(alloc: Global, tokens: &mut Tokens, word: &[u8]) -> Result<Number, SyntaxFault>
    ensures { Reads (reading.natural_line word.now tokens.old) result tokens.new }
{
    expect(alloc, tokens, word)?;
    let number = natural(alloc, tokens)?;
    expect(alloc, tokens, b";")?;
    Ok(number)
}

/// Reads when the program stops.
#[tactic(auto, unfolding(crate::specs::steps::Reading::stop_line))]
fn stop_line(alloc: Global, tokens: &mut Tokens) -> Result<StopSketch, SyntaxFault>
    ensures { Reads (reading.stop_line tokens.old) result tokens.new }
{
    expect(alloc, tokens, b"stop")?;
    let found = stop(alloc, tokens)?;
    expect(alloc, tokens, b";")?;
    Ok(found)
}

#[tactic(auto, unfolding(crate::specs::steps::Reading::stop))]
fn stop(alloc: Global, tokens: &mut Tokens) -> Result<StopSketch, SyntaxFault>
    ensures { Reads (reading.stop tokens.old) result tokens.new }
{
    if eat(alloc, tokens, b"exact")? {
        return Ok(StopSketch::Exact);
    }
    below(alloc, tokens)
}

#[tactic(auto, unfolding(crate::specs::steps::Reading::below))]
fn below(alloc: Global, tokens: &mut Tokens) -> Result<StopSketch, SyntaxFault>
    ensures { Reads (reading.below tokens.old) result tokens.new }
{
    expect(alloc, tokens, b"below")?;
    let threshold = natural(alloc, tokens)?;
    expect(alloc, tokens, b"by")?;
    let by = ident(alloc, tokens)?;
    Ok(StopSketch::Below { threshold, by })
}

/// Reads the caches that are asked for, if any.
#[tactic(auto, unfolding(crate::specs::steps::Reading::asked))]
fn asked(alloc: Global, tokens: &mut Tokens) -> Result<Asked, SyntaxFault>
    ensures { Reads (reading.asked tokens.old) result tokens.new }
{
    if !eat(alloc, tokens, b"cache")? {
        return Ok(NO_CACHES);
    }
    any_line(alloc, tokens)
}

const NO_CACHES: Asked = Asked {
    reducer_input: false,
    reducer_output: false,
    mapper_input: false,
};

/// Reads on behind the first `cache`.
#[tactic(auto, unfolding(crate::specs::steps::Reading::any_line, crate::specs::steps::Reading::input_line))]
fn any_line(alloc: Global, tokens: &mut Tokens) -> Result<Asked, SyntaxFault>
    ensures { Reads (reading.any_line tokens.old) result tokens.new }
{
    if !eat(alloc, tokens, b"reducer_input")? {
        return output_or_mapper(alloc, tokens);
    }
    expect(alloc, tokens, b";")?;
    let more = from_output(alloc, tokens)?;
    Ok(Asked {
        reducer_input: true,
        reducer_output: more.reducer_output,
        mapper_input: more.mapper_input,
    })
}

/// Reads the caches from that of the reducer's output on.
#[tactic(auto, unfolding(crate::specs::steps::Reading::from_output))]
fn from_output(alloc: Global, tokens: &mut Tokens) -> Result<Asked, SyntaxFault>
    ensures { Reads (reading.from_output tokens.old) result tokens.new }
{
    if !eat(alloc, tokens, b"cache")? {
        return Ok(NO_CACHES);
    }
    output_or_mapper(alloc, tokens)
}

/// Reads on behind a `cache` that is not that of the reducer's input.
#[tactic(auto, unfolding(crate::specs::steps::Reading::output_or_mapper, crate::specs::steps::Reading::output_line))]
fn output_or_mapper(alloc: Global, tokens: &mut Tokens) -> Result<Asked, SyntaxFault>
    ensures { Reads (reading.output_or_mapper tokens.old) result tokens.new }
{
    if !eat(alloc, tokens, b"reducer_output")? {
        return mapper_line(alloc, tokens);
    }
    expect(alloc, tokens, b";")?;
    let more = from_mapper(alloc, tokens)?;
    Ok(Asked {
        reducer_input: more.reducer_input,
        reducer_output: true,
        mapper_input: more.mapper_input,
    })
}

/// Reads the cache of the mapper's input, if it is asked for.
#[tactic(auto, unfolding(crate::specs::steps::Reading::from_mapper))]
fn from_mapper(alloc: Global, tokens: &mut Tokens) -> Result<Asked, SyntaxFault>
    ensures { Reads (reading.from_mapper tokens.old) result tokens.new }
{
    if !eat(alloc, tokens, b"cache")? {
        return Ok(NO_CACHES);
    }
    mapper_line(alloc, tokens)
}

#[tactic(auto, unfolding(crate::specs::steps::Reading::mapper_line))]
fn mapper_line(alloc: Global, tokens: &mut Tokens) -> Result<Asked, SyntaxFault>
    ensures { Reads (reading.mapper_line tokens.old) result tokens.new }
{
    expect(alloc, tokens, b"mapper_input")?;
    expect(alloc, tokens, b";")?;
    Ok(Asked {
        reducer_input: false,
        reducer_output: false,
        mapper_input: true,
    })
}

/// Reads one table or more.
#[tactic(auto, unfolding(crate::specs::steps::Reading::tables))]
fn tables(alloc: Global, tokens: &mut Tokens) -> Result<TableSketches, SyntaxFault>
    ensures { Reads (reading.tables tokens.old) result tokens.new }
{
    let mut found = Items::new(alloc);
    found.push(table(alloc, tokens)?)?;
    read_repeated(alloc, tokens, found)
}

#[tactic(auto, unfolding(crate::specs::steps::Reading::table))]
fn table(alloc: Global, tokens: &mut Tokens) -> Result<TableSketch, SyntaxFault>
    ensures { Reads (reading.table tokens.old) result tokens.new }
{
    expect(alloc, tokens, b"table")?;
    let name = ident(alloc, tokens)?;
    let line = tokens.line();
    let file = quoted(alloc, tokens)?;
    let kinds = kinds(alloc, tokens)?;
    expect(alloc, tokens, b";")?;
    Ok(TableSketch {
        name,
        file,
        line,
        row: Row { kinds },
    })
}

impl Item for TableSketch {
    ghost use Rattle.program_sketch.specs.steps.Reading.{table as table_reader};

    ghost reader = { table_reader };

    #[tactic(auto, using(crate::proofs::Shorter::table_shorter))]
    fn read(alloc: Global, tokens: &mut Tokens) -> Result<TableSketch, SyntaxFault> {
        table(alloc, tokens)
    }
}

impl Repeated for TableSketch {
    ghost use Rattle.std.specs.Prelude.{codes};
    ghost use Rattle.program_tokens.specs.steps.Front.{sees};

    ghost begun_by = { sees (codes "table") };

    fn comes_next(tokens: &Tokens) -> bool {
        tokens.sees(b"table")
    }
}

/// Reads one step or more.
#[tactic(auto, unfolding(crate::specs::steps::Reading::steps))]
fn steps(alloc: Global, tokens: &mut Tokens) -> Result<StepSketches, SyntaxFault>
    ensures { Reads (reading.steps tokens.old) result tokens.new }
{
    let mut found = Items::new(alloc);
    found.push(step(alloc, tokens, b"state")?)?;
    read_repeated(alloc, tokens, found)
}

/// Reads a step that reads this stream besides its tables.
#[tactic(auto, unfolding(crate::specs::steps::Reading::step))]
fn step(alloc: Global, tokens: &mut Tokens, stream: &[u8]) -> Result<StepSketch, SyntaxFault>
    ensures { Reads (reading.step stream.now tokens.old) result tokens.new }
{
    let line = expect_line(alloc, tokens, b"step")?;
    expect(alloc, tokens, b"{")?;
    expect(alloc, tokens, stream)?;
    step_rest(alloc, tokens, line)
}

/// Reads what stands in a step behind the word of its stream.
#[tactic(auto, unfolding(crate::specs::steps::Reading::step_rest))]
fn step_rest(alloc: Global, tokens: &mut Tokens, line: u64) -> Result<StepSketch, SyntaxFault>
    ensures { Reads (reading.step_rest line tokens.old) result tokens.new }
{
    let map = ident_line(alloc, tokens, b"by")?;
    let inputs = read_repeated(alloc, tokens, Items::new(alloc))?;
    let reduce = ident_line(alloc, tokens, b"reduce")?;
    let partition = partition(alloc, tokens)?;
    expect(alloc, tokens, b"}")?;
    Ok(StepSketch {
        line,
        map,
        inputs,
        reduce,
        partition,
    })
}

impl Item for StepSketch {
    ghost use Rattle.std.specs.Prelude.{codes};
    ghost use Rattle.program_sketch.specs.steps.Reading.{step as step_reader};

    ghost reader = { step_reader (codes "prev") };

    #[tactic(auto, using(crate::proofs::Shorter::step_shorter))]
    fn read(alloc: Global, tokens: &mut Tokens) -> Result<StepSketch, SyntaxFault> {
        step(alloc, tokens, b"prev")
    }
}

impl Repeated for StepSketch {
    ghost use Rattle.std.specs.Prelude.{codes};
    ghost use Rattle.program_tokens.specs.steps.Front.{sees};

    ghost begun_by = { sees (codes "step") };

    fn comes_next(tokens: &Tokens) -> bool {
        tokens.sees(b"step")
    }
}

/// Reads a table that a step reads.
#[tactic(auto, unfolding(crate::specs::steps::Reading::input))]
fn input(alloc: Global, tokens: &mut Tokens) -> Result<InputSketch, SyntaxFault>
    ensures { Reads (reading.input tokens.old) result tokens.new }
{
    expect(alloc, tokens, b"table")?;
    let table = ident(alloc, tokens)?;
    let only = only(alloc, tokens)?;
    let map = ident_line(alloc, tokens, b"by")?;
    Ok(InputSketch { table, only, map })
}

impl Item for InputSketch {
    ghost use Rattle.program_sketch.specs.steps.Reading.{input as input_reader};

    ghost reader = { input_reader };

    #[tactic(auto, using(crate::proofs::Shorter::input_shorter))]
    fn read(alloc: Global, tokens: &mut Tokens) -> Result<InputSketch, SyntaxFault> {
        input(alloc, tokens)
    }
}

impl Repeated for InputSketch {
    ghost use Rattle.std.specs.Prelude.{codes};
    ghost use Rattle.program_tokens.specs.steps.Front.{sees};

    ghost begun_by = { sees (codes "table") };

    fn comes_next(tokens: &Tokens) -> bool {
        tokens.sees(b"table")
    }
}

/// Reads the one round in which a table is read, if it is not read in each.
#[tactic(auto, unfolding(crate::specs::steps::Reading::only))]
fn only(alloc: Global, tokens: &mut Tokens) -> Result<Option<Number>, SyntaxFault>
    ensures { Reads (reading.only tokens.old) result tokens.new }
{
    if !eat(alloc, tokens, b"round")? {
        return Ok(None);
    }
    let round = natural(alloc, tokens)?;
    Ok(Some(round))
}

/// Reads the partition of a step, if it has one.
#[tactic(auto, unfolding(crate::specs::steps::Reading::partition))]
fn partition(alloc: Global, tokens: &mut Tokens) -> Result<Option<Ident>, SyntaxFault>
    ensures { Reads (reading.partition tokens.old) result tokens.new }
{
    if !tokens.sees(b"partition") {
        return Ok(None);
    }
    let found = ident_line(alloc, tokens, b"partition")?;
    Ok(Some(found))
}
