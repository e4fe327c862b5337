ghost use Rattle.std.specs.Prelude.{◌≡◌, ℕ, ◌+◌, ◌<◌, ◌∷◌, [], List, length, IfOk, IfErr, IfNone, IfSome, MatchResult};
ghost use Rattle.std.specs.Str.Lines.{strip_carriage_return};
ghost use Rattle.hal_base.specs.declared.record.Record.{Record as Row};
ghost use Rattle.hal_base.specs.steps.LineReading.{HasNumberedFault};
ghost use Rattle.hal_base.specs.Lines.{StandsFor, TextStandsForTable, line_of, lines_in, table_text};
ghost use Rattle.hal_base.specs.Values.{IsRecordOf};
ghost use Rattle.hal_base.specs.TableFaults.{HasTableFault};

use crate::fields::Schema;
use crate::line::{LineFault, append_line, read_line};
use crate::memory::Memory;
use crate::record::{Record, Records};
use memchr::memchr;
use std::alloc::Global;
use thiserror::Error;

/// How many records a table may have.
pub const MAX_RECORDS: usize = 10_000_000;

/// Why no table of the schema stands for the bytes of a file. Lines count from 1. docs/FORMATS.md,
/// "Tables".
#[derive(Clone, Copy, Debug, Error)]
pub enum TableFault {
    #[error("line {line}: {what}")]
    Line { line: u32, what: LineFault },
    #[error("line {line}: limit")]
    TooMany { line: u32 },
    #[error("memory")]
    Memory,
}

impl From<Memory> for TableFault {
    ghost use Rattle.hal_base.specs.declared.table.TableFault.TheVariants as fault;

    ghost from_gives = { λ _ it. it ≡ fault.Memory };

    fn from(_error: Memory) -> TableFault {
        TableFault::Memory
    }
}

/// The table of the schema that the bytes of a file stand for.
pub fn read_table(alloc: Global, bytes: &[u8], schema: &Schema) -> Result<Records, TableFault>
    ensures found { IfOk result (StandsFor schema.now bytes.now) }
    ensures only { (rows : List Row) → StandsFor schema.now bytes.now rows → MatchResult result (λ found. found ≡ rows) (λ fault. fault ≡ TableFault.Memory) }
    ensures fault { IfErr result (HasTableFault schema.now bytes.now) }
{
    read_lines(alloc, bytes, schema)
}

fn read_lines(alloc: Global, bytes: &[u8], schema: &Schema) -> Result<Records, TableFault>
    ensures found { IfOk result (StandsFor schema.now bytes.now) }
    ensures fault { IfErr result (HasTableFault schema.now bytes.now) }
{
    let mut rows = Records::with_capacity(alloc, line_ends(bytes).min(MAX_RECORDS))?;
    let mut left = bytes;
    'lines: while let Some((line, others)) = cut_line(left) {
        if rows.len() == MAX_RECORDS {
            return Err(TableFault::TooMany {
                line: MAX_RECORDS as u32 + 1,
            });
        }
        let number = rows.len() as u32 + 1;
        rows.push(read_numbered(alloc, line, schema, number)?)?;
        left = others;
    }
    Ok(rows)
}

/// An estimate of the number of lines, so that the list need not grow.
fn line_ends(bytes: &[u8]) -> usize {
    bytes.iter().filter(|byte| **byte == b'\n').count()
}

/// The first line, and what stands behind its LF. `None` where no line is left.
fn cut_line(bytes: &[u8]) -> Option<(&[u8], &[u8])>
    ensures none { IfNone result (lines_in bytes.now ≡ []) }
    ensures some { IfSome result (λ parts. lines_in bytes.now ≡ parts.0.now ∷ lines_in parts.1.now) }
    ensures shorter { IfSome result (λ parts. length parts.1.now < length bytes.now) }
{
    if bytes.is_empty() {
        return None;
    }
    match memchr(b'\n', bytes) {
        Some(at) => Some((&bytes[..at], &bytes[at + 1..])),
        None => Some((bytes, &[])),
    }
}

fn without_carriage_return(line: &[u8]) -> &[u8]
    ensures { result.now ≡ strip_carriage_return line.now }
{
    match line {
        [front @ .., b'\r'] => front,
        _ => line,
    }
}

/// The record of a line, of which one CR at the end is dropped, or the fault with the line's number.
fn read_numbered(
    alloc: Global,
    line: &[u8],
    schema: &Schema,
    number: u32,
) -> Result<Record, TableFault>
    ensures found { IfOk result (λ row. IsRecordOf schema.now row × (strip_carriage_return line.now ≡ line_of row)) }
    ensures fault { IfErr result (HasNumberedFault schema.now number (strip_carriage_return line.now)) }
{
    match read_line(alloc, without_carriage_return(line), schema) {
        Ok(row) => Ok(row),
        Err(LineFault::Memory) => Err(TableFault::Memory),
        Err(what) => Err(TableFault::Line { line: number, what }),
    }
}

/// The text of a table: the line of each record, ended by LF.
pub fn lines(alloc: Global, rows: &Records) -> Result<Vec<u8>, Memory>
    ensures { IfOk result (λ bytes. bytes.items ≡ table_text rows.now) }
{
    let mut bytes = Vec::new(alloc);
    'rows: for row in rows.as_slice() {
        append_line(&mut bytes, row)?;
    }
    Ok(bytes)
}

/// The text of a table stands for the table.
pub fn a_table_is_read_from_its_lines()
    ensures { TextStandsForTable }
{}
