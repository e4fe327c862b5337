ghost use Rattle.std.specs.Prelude.{◌≡◌, ◌<◌, ◌≤◌, ◌^◌, ◌++◌, length, IfOk, OnOk};
ghost use Rattle.std.specs.List.{AllByRecursion, flat_map};
ghost use Rattle.hal_base.specs.Order.{record_cmp};
ghost use Rattle.hal_base.specs.Sorted.{Ascending};
ghost use Rattle.hal_base.specs.Values.{FitsSchema};
ghost use Rattle.partition_shuffle.specs.steps.Lengths.{IsShort};
ghost use Rattle.partition_shuffle.specs.SpillTexts.{IsSpill, section_text};

use hal_base::{Memory, Parts, Records, Schema};
use record_blocks::{block_size, push_block};
use std::alloc::Global;

/// The spill text of 1 to 64 parts, each of which is in order and has records that fit the schema.
/// docs/FORMATS.md, "Spills".
pub fn encode_spill(alloc: Global, spill: &Parts, schema: &Schema) -> Result<Vec<u8>, Memory>
    requires some { 1 ≤ length spill.now }
    requires few { length spill.now ≤ 64 }
    requires in_order { AllByRecursion (Ascending record_cmp) spill.now }
    requires fits { AllByRecursion (AllByRecursion (FitsSchema schema.now)) spill.now }
    ensures { IfOk result (λ bytes. IsSpill schema.now bytes.items spill.now) }
{
    let mut out = Vec::with_capacity(alloc, spill_size(spill, schema) as usize)?;
    out.extend_from_slice(b"HLS1")?;
    out.extend_from_slice(&(spill.len() as u16).to_be_bytes())?;
    push_sections(&mut out, spill, schema)?;
    Ok(out)
}

/// How many bytes the spill text has, or the greatest `u64` where it has more.
fn spill_size(spill: &Parts, schema: &Schema) -> u64
    requires { AllByRecursion (AllByRecursion (FitsSchema schema.now)) spill.now }
{
    let mut size = 6u64;
    'parts: for rows in spill.as_slice() {
        size = size
            .saturating_add(8)
            .saturating_add(block_size(rows, schema));
    }
    size
}

fn push_sections(out: &mut Vec<u8>, spill: &Parts, schema: &Schema) -> Result<(), Memory>
    requires { AllByRecursion (AllByRecursion (FitsSchema schema.now)) spill.now }
    ensures pushed { OnOk result (out.new.items ≡ out.old.items ++ flat_map (section_text schema.now) spill.now) }
    ensures short { OnOk result (AllByRecursion (IsShort schema.now) spill.now) }
{
    'parts: for rows in spill.as_slice() {
        push_section(out, rows, schema)?;
    }
    Ok(())
}

fn push_section(out: &mut Vec<u8>, rows: &Records, schema: &Schema) -> Result<(), Memory>
    requires { AllByRecursion (FitsSchema schema.now) rows.now }
    ensures pushed { OnOk result (out.new.items ≡ out.old.items ++ section_text schema.now rows.now) }
    ensures short { OnOk result (IsShort schema.now rows.now) }
{
    let size = block_size(rows, schema);
    out.extend_from_slice(&size.to_be_bytes())?;
    push_block(out, rows, schema)?;
    Ok(())
}
