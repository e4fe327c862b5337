// The plain chain, which no command runs, over a worked program.
ghost use Rattle.std.specs.Prelude.{◌≡◌, IfOk, length};
ghost use Rattle.hal_base.specs.declared.shape.Origin.TheVariants as from;
ghost use Rattle.hal_base.specs.Shapes.{IsWellFormed};
ghost use Rattle.row_tests.specs.steps.Shapes.{AreStepsOverTwo, IsStepOverTwo};

use crate::link_counts::LinkCounts;
use crate::samples::{pair, pairs_schema};
use hal_base::{
    Counts, Memory, Origin, Parts, Records, Schemas, Shape, Source, Sources, Step, Steps, Tables,
    lines,
};
use plain_job::{End, plain_chain};
use std::alloc::Global;
use std::test::Fail;

/// When a chain of two rounds stops.
#[derive(Clone, Copy)]
struct Stop {
    exact: bool,
    threshold: u64,
}

fn source_of(alloc: Global, from: Origin) -> Result<Source, Memory>
    ensures { IfOk result (λ source. source.from ≡ from) }
{
    Ok(Source {
        from,
        stream: pairs_schema(alloc)?,
        reducer_input: false,
        mapper_input: false,
    })
}

/// A step over the state and the links.
fn only_step(alloc: Global) -> Result<Step, Memory>
    ensures { IfOk result IsStepOverTwo }
{
    let links = Origin::Table {
        table: 1,
        only: None,
    };
    let mut sources = Sources::new(alloc);
    sources.push(source_of(alloc, Origin::State)?)?;
    sources.push(source_of(alloc, links)?)?;
    Ok(Step {
        sources,
        out: pairs_schema(alloc)?,
    })
}

fn only_steps(alloc: Global) -> Result<Steps, Memory>
    ensures { IfOk result AreStepsOverTwo }
{
    let mut steps = Steps::new(alloc);
    steps.push(only_step(alloc)?)?;
    Ok(steps)
}

fn two_tables(alloc: Global) -> Result<Schemas, Memory>
    ensures { IfOk result (λ tables. length tables ≡ 2) }
{
    let mut tables = Schemas::new(alloc);
    tables.push(pairs_schema(alloc)?)?;
    tables.push(pairs_schema(alloc)?)?;
    Ok(tables)
}

fn shape_of(alloc: Global, stop: Stop) -> Result<Shape, Memory>
    ensures { IfOk result IsWellFormed }
{
    Ok(Shape {
        parts: 2,
        rounds: 2,
        exact: stop.exact,
        threshold: stop.threshold,
        start: 0,
        tables: two_tables(alloc)?,
        blocks: Counts::new(alloc),
        steps: only_steps(alloc)?,
        reducer_output: false,
    })
}

fn table_of(alloc: Global, pairs: &[(i64, i64)]) -> Result<Records, Memory> {
    let mut rows = Records::new(alloc);
    for (key, field) in pairs {
        rows.push(pair(alloc, *key, *field)?)?;
    }
    Ok(rows)
}

fn tables_of(alloc: Global) -> Result<Tables, Memory> {
    let mut tables = Tables::new(alloc);
    tables.push(table_of(alloc, &[(9, 0)])?)?;
    tables.push(table_of(alloc, &[(1, 2), (1, 3), (4, 1)])?)?;
    Ok(tables)
}

/// Whether these are the parts that round 2 leaves.
fn are_of_round_2(alloc: Global, parts: &Parts) -> Result<bool, Memory> {
    let [first, second] = parts.as_slice() else {
        return Ok(false);
    };
    let first = lines(alloc, first)?;
    let second = lines(alloc, second)?;
    Ok(
        first.as_slice() == b"14\t1\n24\t0\n".as_slice()
            && second.as_slice() == b"11\t2\n21\t0\n29\t0\n".as_slice(),
    )
}

/// Whether the chain ends so in round 2.
fn ends_so(alloc: Global, stop: Stop, end: End) -> Result<bool, Memory> {
    let shape = shape_of(alloc, stop)?;
    let tables = tables_of(alloc)?;
    let chain = plain_chain(alloc, &LinkCounts {}, &shape, &tables)?;
    Ok(chain.rounds == 2 && chain.end == end && are_of_round_2(alloc, &chain.parts)?)
}

// Round 2 is 4 from round 1 by the exact stop, and 0 by the function.
#[test]
fn counted_links_end_in_each_way(rt: HostRuntime) -> Result<(), Fail> {
    for (exact, threshold, end) in [
        (true, 4, End::Limit),
        (true, 5, End::Fixpoint),
        (false, 1, End::Close),
        (false, 0, End::Limit),
    ] {
        assert!(rt;
            ends_so(rt.alloc(), Stop { exact, threshold }, end)?,
            "below {threshold}"
        );
    }
    Ok(())
}
