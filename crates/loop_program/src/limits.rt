ghost use Rattle.std.specs.Prelude.{◌≡◌, ℕ};
ghost use Rattle.loop_program.specs.Found.{Found};
ghost use Rattle.loop_program.specs.Limits as spec;
ghost use Rattle.loop_program.specs.Limits.{few};

use crate::places::name_of;
use crate::typing::TypedSketch;
use function_language::{Function, Stream};
use program_sketch::{InputSketch, ProgramFault, StepSketch, TableSketch, What};
use program_tokens::Number;

/// A part of a program of which there may be so many, and each must be within its own limits.
trait Limited {
    ghost line_of: { Self → ℕ };

    ghost within: { Self → Found (Unit {0}) };

    /// The line that names it.
    fn line(&self) -> u64
        ensures { result ≡ line_of self.now };

    /// Its own limits.
    fn check(&self) -> Result<(), ProgramFault>
        ensures { result ≡ within self.now };
}

/// The first of a program's numbers, tables, functions, sources and steps that breaks a limit.
/// docs/LANGUAGE.md, "What is refused".
pub(crate) fn limits(sketch: &TypedSketch) -> Result<(), ProgramFault>
    ensures { result ≡ spec.limits sketch.now }
{
    count(64, &sketch.parts)?;
    count(10_000, &sketch.rounds)?;
    check_few(16, sketch.tables.as_slice())?;
    check_few(64, sketch.functions.tree().as_slice())?;
    check_few(8, sketch.steps.as_slice())
}

/// At most so many of these, and each within its own limits.
fn check_few<T: Limited>(most: u32, items: &[T]) -> Result<(), ProgramFault>
    ensures { result ≡ few T.line_of T.within most items.now }
{
    let mut left = most;
    'items: for item in items {
        let Some(fewer) = left.checked_sub(1) else {
            return refused(item.line());
        };
        item.check()?;
        left = fewer;
    }
    Ok(())
}

fn refused(line: u64) -> Result<(), ProgramFault>
    ensures { result ≡ spec.refused line }
{
    Err(ProgramFault::At {
        line,
        what: What::Limit,
    })
}

fn expect(test: bool, line: u64) -> Result<(), ProgramFault>
    ensures { result ≡ spec.expect test line }
{
    if test { Ok(()) } else { refused(line) }
}

/// A number is from 1 to the most.
fn count(most: u32, number: &Number) -> Result<(), ProgramFault>
    ensures { result ≡ spec.counts most number.now }
{
    expect(is_count(most, number.value), number.line)
}

fn is_count(most: u32, value: i64) -> bool
    ensures { result ≡ spec.is_count most value }
{
    match u32::try_from(value) {
        Ok(count) => 1 <= count && count <= most,
        Err(_) => false,
    }
}

/// A record has from 1 to 8 values.
fn make_a_record(count: usize) -> bool
    ensures { result ≡ spec.make_a_record count }
{
    1 <= count && count <= 8
}

impl Limited for TableSketch {
    ghost use Rattle.loop_program.specs.Limits.{table_line, table_within};

    ghost line_of = { table_line };

    ghost within = { table_within };

    fn line(&self) -> u64 {
        self.name.line
    }

    fn check(&self) -> Result<(), ProgramFault> {
        expect(make_a_record(self.row.kinds.len()), self.name.line)?;
        expect(!self.file.as_slice().is_empty(), self.line)
    }
}

impl Limited for Function {
    ghost use Rattle.loop_program.specs.Limits.{function_line, function_within};

    ghost line_of = { function_line };

    ghost within = { function_within };

    fn line(&self) -> u64 {
        name_of(self).line
    }

    fn check(&self) -> Result<(), ProgramFault> {
        match self {
            Function::Map {
                name,
                params,
                arrow,
                out,
                ..
            } => {
                expect(make_a_record(params.len()), name.line)?;
                expect(make_a_record(out.kinds.len()), *arrow)
            }
            Function::Reduce {
                streams,
                arrow,
                out,
                ..
            } => {
                check_few(8, streams.as_slice())?;
                expect(make_a_record(out.kinds.len()), *arrow)
            }
            Function::Distance { before, after, .. } => {
                before.check()?;
                after.check()
            }
            Function::Partition { .. } => Ok(()),
        }
    }
}

impl Limited for Stream {
    ghost use Rattle.loop_program.specs.Limits.{stream_line, stream_within};

    ghost line_of = { stream_line };

    ghost within = { stream_within };

    fn line(&self) -> u64 {
        self.name.line
    }

    fn check(&self) -> Result<(), ProgramFault> {
        expect(self.kinds.len() <= 7, self.name.line)
    }
}

impl Limited for StepSketch {
    ghost use Rattle.loop_program.specs.Limits.{step_line, step_within};

    ghost line_of = { step_line };

    ghost within = { step_within };

    fn line(&self) -> u64 {
        self.line
    }

    fn check(&self) -> Result<(), ProgramFault> {
        check_few(7, self.inputs.as_slice())
    }
}

impl Limited for InputSketch {
    ghost use Rattle.loop_program.specs.Limits.{input_line, input_within};

    ghost line_of = { input_line };

    ghost within = { input_within };

    fn line(&self) -> u64 {
        self.table.line
    }

    fn check(&self) -> Result<(), ProgramFault> {
        match &self.only {
            Some(number) => count(10_000, number),
            None => Ok(()),
        }
    }
}
