ghost use Rattle.std.specs.Prelude.{◌≡◌, ◌+◌, ◌-◌, ◌*◌, ◌^◌, ◌≤◌, ◌∷◌, ◌++◌, false, length, min, IfOk, OnOk};
ghost use Rattle.hal_base.specs.declared.value.Kind.{Kind as Sort};
ghost use Rattle.std.specs.List.{AllByRecursion, flat_map};
ghost use Rattle.hal_base.specs.Values.{FitsSchema, IsValue};
ghost use Rattle.record_blocks.specs.Blocks.{FitBlock, IsBlock, block_head, block_text, kind_byte, record_bytes, value_bytes};
ghost use Rattle.record_blocks.specs.steps.Values.{AreValues};

use hal_base::{Fields, Kind, Memory, Record, Records, Schema, Value};
use std::alloc::Global;

/// The block text of records, each of which fits the schema. docs/FORMATS.md, "Blocks".
pub fn encode(alloc: Global, rows: &Records, schema: &Schema) -> Result<Vec<u8>, Memory>
    requires { AllByRecursion (FitsSchema schema.now) rows.now }
    ensures { IfOk result (λ bytes. IsBlock schema.now bytes.items rows.now) }
{
    // The bytes of texts are not counted before, since that would read all records twice.
    let room = head_size(schema).saturating_add(numbers_size(rows, schema));
    let mut out = Vec::with_capacity(alloc, room as usize)?;
    push_block(&mut out, rows, schema)?;
    Ok(out)
}

/// Adds the block text of records at the end. After `Memory` a part of it may be there.
pub fn push_block(out: &mut Vec<u8>, rows: &Records, schema: &Schema) -> Result<(), Memory>
    requires { AllByRecursion (FitsSchema schema.now) rows.now }
    ensures pushed { OnOk result (out.new.items ≡ out.old.items ++ block_text schema.now rows.now) }
    ensures fits { OnOk result (FitBlock schema.now rows.now) }
{
    push_head(out, schema)?;
    out.extend_from_slice(&(rows.len() as u64).to_be_bytes())?;
    push_rows(out, rows)?;
    Ok(())
}

/// How many bytes the block text of records has, each of which fits the schema, or the greatest `u64` where
/// it has more.
#[tactic(auto, using(crate::proofs::Sizes::block_length))]
pub fn block_size(rows: &Records, schema: &Schema) -> u64
    requires { AllByRecursion (FitsSchema schema.now) rows.now }
    ensures { result ≡ min (length (block_text schema.now rows.now)) (2 ^ 64 - 1) }
{
    head_size(schema).saturating_add(rows_size(rows, schema))
}

/// How many bytes stand before the first record.
fn head_size(schema: &Schema) -> u64
    ensures { result ≡ length schema.now.fields + 14 }
{
    schema.fields.len() as u64 + 14
}

/// How many bytes the records have. Those of numbers alone need not be looked at.
#[tactic(auto, using(crate::proofs::Sizes::all_widths))]
fn rows_size(rows: &Records, schema: &Schema) -> u64
    requires { AllByRecursion (FitsSchema schema.now) rows.now }
    ensures { result ≡ min (length (flat_map record_bytes rows.now)) (2 ^ 64 - 1) }
{
    if has_texts(schema) {
        return sum_of_sizes(rows);
    }
    numbers_size(rows, schema)
}

/// How many bytes the records have if each value is a number, or the greatest `u64` where they have more.
fn numbers_size(rows: &Records, schema: &Schema) -> u64
    ensures { result ≡ min (length rows.now * (8 * (length schema.now.fields + 1))) (2 ^ 64 - 1) }
{
    let width = 8 * (schema.fields.len() as u64 + 1);
    (rows.len() as u64).saturating_mul(width)
}

/// Whether a record of the schema has a text.
fn has_texts(schema: &Schema) -> bool
    ensures { result ≡ false → AllByRecursion (λ (kind : Sort). kind ≡ Kind.Int) (schema.now.key ∷ schema.now.fields) }
{
    if is_text(schema.key) {
        return true;
    }
    'kinds: for kind in schema.fields.as_slice() {
        if is_text(*kind) {
            return true;
        }
    }
    false
}

fn is_text(kind: Kind) -> bool
    ensures { result ≡ false → kind ≡ Kind.Int }
{
    match kind {
        Kind::Int => false,
        Kind::Text => true,
    }
}

#[tactic(auto, using(crate::proofs::Sizes::one_less))]
fn sum_of_sizes(rows: &Records) -> u64
    ensures { result ≡ min (length (flat_map record_bytes rows.now)) (2 ^ 64 - 1) }
{
    let mut size = 0u64;
    'rows: for row in rows.as_slice() {
        size = size.saturating_add(row_size(row));
    }
    size
}

#[tactic(auto, using(crate::proofs::Sizes::one_less))]
fn row_size(row: &Record) -> u64
    ensures { result ≡ length (record_bytes row.now) }
{
    let mut size = value_size(&row.key);
    'values: for value in row.fields.as_slice() {
        size += value_size(value);
    }
    size
}

fn value_size(value: &Value) -> u64
    ensures size { result ≡ length (value_bytes value.now) }
    ensures few { result ≤ 256 }
{
    match value {
        Value::Int(_) => 8,
        Value::Text(text) => text.len() as u64 + 1,
    }
}

/// What a block of this schema begins with.
pub(crate) fn head_of(alloc: Global, schema: &Schema) -> Result<Vec<u8>, Memory>
    ensures { IfOk result (λ head. head.items ≡ block_head schema.now) }
{
    let mut head = Vec::with_capacity(alloc, 13)?;
    push_head(&mut head, schema)?;
    Ok(head)
}

fn push_head(out: &mut Vec<u8>, schema: &Schema) -> Result<(), Memory>
    ensures { OnOk result (out.new.items ≡ out.old.items ++ block_head schema.now) }
{
    out.extend_from_slice(b"HLB1")?;
    out.push(schema.fields.len() as u8 + 1)?;
    out.push(byte_of(schema.key))?;
    'kinds: for kind in schema.fields.as_slice() {
        out.push(byte_of(*kind))?;
    }
    Ok(())
}

fn byte_of(kind: Kind) -> u8
    ensures { result ≡ kind_byte kind }
{
    match kind {
        Kind::Int => b'I',
        Kind::Text => b'T',
    }
}

fn push_rows(out: &mut Vec<u8>, rows: &Records) -> Result<(), Memory>
    ensures pushed { OnOk result (out.new.items ≡ out.old.items ++ flat_map record_bytes rows.now) }
    ensures values { OnOk result (AllByRecursion AreValues rows.now) }
{
    'rows: for row in rows.as_slice() {
        push_row(out, row)?;
    }
    Ok(())
}

fn push_row(out: &mut Vec<u8>, row: &Record) -> Result<(), Memory>
    ensures pushed { OnOk result (out.new.items ≡ out.old.items ++ record_bytes row.now) }
    ensures values { OnOk result (AreValues row.now) }
{
    if let [field] = row.fields.as_slice() {
        return push_pair(out, &row.key, field);
    }
    push_value(out, &row.key)?;
    push_fields(out, &row.fields)?;
    Ok(())
}

/// The bytes of a key and its one field. Two numbers go in one step, which takes less than a step for each.
fn push_pair(out: &mut Vec<u8>, key: &Value, field: &Value) -> Result<(), Memory>
    ensures pushed { OnOk result (out.new.items ≡ out.old.items ++ (value_bytes key.now ++ value_bytes field.now)) }
    ensures values { OnOk result (IsValue key.now × IsValue field.now) }
{
    if let (Value::Int(key), Value::Int(field)) = (key, field) {
        let (key, field) = (*key, *field);
        let both = [key.to_be_bytes(), field.to_be_bytes()];
        out.extend_from_slice(both.as_flattened())?;
        return Ok(());
    }
    push_value(out, key)?;
    push_value(out, field)?;
    Ok(())
}

fn push_fields(out: &mut Vec<u8>, fields: &Fields) -> Result<(), Memory>
    ensures pushed { OnOk result (out.new.items ≡ out.old.items ++ flat_map value_bytes fields.now) }
    ensures values { OnOk result (AllByRecursion IsValue fields.now) }
{
    'values: for value in fields.as_slice() {
        push_value(out, value)?;
    }
    Ok(())
}

// A call for each value would take longer than its bytes.
#[inline(always)]
fn push_value(out: &mut Vec<u8>, value: &Value) -> Result<(), Memory>
    ensures pushed { OnOk result (out.new.items ≡ out.old.items ++ value_bytes value.now) }
    ensures value { OnOk result (IsValue value.now) }
{
    match value {
        Value::Int(n) => {
            let n = *n;
            out.extend_from_slice(&n.to_be_bytes())?;
        }
        Value::Text(text) => {
            out.push(text.len() as u8)?;
            out.extend_from_slice(text.as_slice())?;
        }
    }
    Ok(())
}
