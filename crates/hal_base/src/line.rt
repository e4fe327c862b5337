ghost use Rattle.std.specs.Prelude.{◌≡◌, ◌+◌, ◌==◌, count_by, ◌≤◌, ◌++◌, ◌∷◌, [], length, IfOk, IfErr, OnOk, MatchResult};
ghost use Rattle.std.specs.Option.{option_copied};
ghost use Rattle.hal_base.specs.declared.record.Record.{Record as Row};
ghost use Rattle.hal_base.specs.Values.{IsRecordOf};
ghost use Rattle.hal_base.specs.Lines.{value_text, line_of};
ghost use Rattle.hal_base.specs.LineFaults.{pieces_in, HasFault};
ghost use Rattle.hal_base.specs.steps.LineReading.{IsRead, AreRead, HasPieceFault, HasFieldFault, pieces_left};

use crate::fields::{Fields, Schema};
use crate::memory::Memory;
use crate::number::read_number;
use crate::record::Record;
use crate::text::{Text, is_text};
use crate::value::{Kind, Value};
use itoa::Buffer;
use memchr::memchr;
use std::alloc::Global;
use thiserror::Error;

/// Why no record of the schema stands for a line. Piece 0 is the key. docs/FORMATS.md, "Tables".
#[derive(Clone, Copy, Debug, Error)]
pub enum LineFault {
    #[error("field-count")]
    FieldCount,
    #[error("bad-number {field}")]
    BadNumber { field: u32 },
    #[error("bad-text {field}")]
    BadText { field: u32 },
    #[error("memory")]
    Memory,
}

impl From<Memory> for LineFault {
    ghost use Rattle.hal_base.specs.declared.line.LineFault.TheVariants as fault;

    ghost from_gives = { λ _ it. it ≡ fault.Memory };

    fn from(_error: Memory) -> LineFault {
        LineFault::Memory
    }
}

/// The record of the schema whose line this is. The line has no end.
pub fn read_line(alloc: Global, line: &[u8], schema: &Schema) -> Result<Record, LineFault>
    ensures found { IfOk result (λ row. IsRecordOf schema.now row × (line.now ≡ line_of row)) }
    ensures only { (row : Row) → IsRecordOf schema.now row → line.now ≡ line_of row → MatchResult result (λ found. found ≡ row) (λ fault. fault ≡ LineFault.Memory) }
    ensures fault { IfErr result (HasFault schema.now line.now) }
{
    read_record(alloc, line, schema)
}

fn read_record(alloc: Global, line: &[u8], schema: &Schema) -> Result<Record, LineFault>
    ensures found { IfOk result (λ row. IsRecordOf schema.now row × (line.now ≡ line_of row)) }
    ensures fault { IfErr result (HasFault schema.now line.now) }
{
    if field_count(line) != schema.fields.len() {
        return Err(LineFault::FieldCount);
    }
    let (piece, rest) = cut_piece(line);
    let key = read_value(alloc, piece, schema.key, 0)?;
    let fields = read_fields(alloc, rest, schema.fields.as_slice())?;
    Ok(Record { key, fields })
}

/// The number of pieces past the key.
fn field_count(line: &[u8]) -> usize
    ensures { length (pieces_in line.now) ≡ 1 + result }
{
    tabs(line)
}

fn tabs(line: &[u8]) -> usize
    ensures { result ≡ count_by (λ byte. byte == 9) line.now }
{
    line.iter().filter(|byte| **byte == b'\t').count()
}

/// The first piece, and what stands behind its tab, if there is one.
fn cut_piece(line: &[u8]) -> (&[u8], Option<&[u8]>)
    ensures { pieces_in line.now ≡ result.0.now ∷ pieces_left (option_copied result.1) }
{
    match memchr(b'\t', line) {
        Some(at) => (&line[..at], Some(&line[at + 1..])),
        None => (line, None),
    }
}

/// The fields of these kinds, from the pieces of the rest of a line.
fn read_fields(alloc: Global, rest: Option<&[u8]>, kinds: &[Kind]) -> Result<Fields, LineFault>
    requires few { length kinds.now ≤ 7 }
    requires same { length (pieces_left (option_copied rest)) ≡ length kinds.now }
    ensures found { IfOk result (λ fields. AreRead kinds.now (pieces_left (option_copied rest.entry)) fields) }
    ensures fault { IfErr result (HasFieldFault kinds.now (pieces_left (option_copied rest.entry))) }
{
    let mut fields = Fields::new(alloc);
    let mut left = rest;
    'fields: for (at, kind) in kinds.iter().enumerate() {
        let Some(line) = left else { unreachable!() };
        let (piece, others) = cut_piece(line);
        fields.push(read_value(alloc, piece, *kind, at as u32 + 1)?)?;
        left = others;
    }
    Ok(fields)
}

/// The value of this kind that is spelled so; `place` is the number of the piece.
fn read_value(alloc: Global, piece: &[u8], kind: Kind, place: u32) -> Result<Value, LineFault>
    ensures found { IfOk result (λ value. IsRead kind piece.now value) }
    ensures fault { IfErr result (HasPieceFault kind place piece.now) }
{
    match kind {
        Kind::Int => match read_number(piece) {
            Some(n) => Ok(Value::Int(n)),
            None => Err(LineFault::BadNumber { field: place }),
        },
        Kind::Text => {
            if !is_text(piece) {
                return Err(LineFault::BadText { field: place });
            }
            let text = Text::from_bytes(alloc, piece)?;
            Ok(Value::Text(text))
        }
    }
}

/// The line of a record, ended by LF.
pub fn write_line(alloc: Global, row: &Record) -> Result<Vec<u8>, Memory>
    ensures { IfOk result (λ bytes. bytes.items ≡ line_of row.now ++ 10 ∷ []) }
{
    let mut bytes = Vec::new(alloc);
    append_line(&mut bytes, row)?;
    Ok(bytes)
}

pub(crate) fn append_line(out: &mut Vec<u8>, row: &Record) -> Result<(), Memory>
    ensures { OnOk result (out.new.items ≡ out.old.items ++ (line_of row.now ++ 10 ∷ [])) }
{
    append_value(out, &row.key)?;
    'fields: for value in row.fields.as_slice() {
        append_field(out, value)?;
    }
    out.push(b'\n')?;
    Ok(())
}

fn append_field(out: &mut Vec<u8>, value: &Value) -> Result<(), Memory>
    ensures { OnOk result (out.new.items ≡ out.old.items ++ (9 ∷ value_text value.now)) }
{
    out.push(b'\t')?;
    append_value(out, value)
}

fn append_value(out: &mut Vec<u8>, value: &Value) -> Result<(), Memory>
    ensures { OnOk result (out.new.items ≡ out.old.items ++ value_text value.now) }
{
    match value {
        Value::Int(n) => {
            let mut digits = Buffer::new();
            out.extend_from_slice(digits.format(*n).as_bytes())?;
        }
        Value::Text(text) => out.extend_from_slice(text.as_slice())?,
    }
    Ok(())
}
