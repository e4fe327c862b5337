ghost use Rattle.std.specs.Prelude.{◌≡◌, ◌≤◌, [], ◌∷◌, ◌++◌, true, map, replicate, IfOk, OnOk};
ghost use Rattle.std.specs.List.{AllByRecursion};
ghost use Rattle.hal_base.specs.declared.record.Record.{Record as Row};
ghost use Rattle.hal_base.specs.Order.{record_cmp};
ghost use Rattle.hal_base.specs.Sorted.{Ascending, sorted};
ghost use Rattle.plain_job.specs.Job.{stream};
ghost use Rattle.sorted_parts.specs.Spills.{spilled};
ghost use Rattle.sorted_parts.specs.steps.Dealt.{dealt};

use hal_base::{Functions, Memory, Parts, Record, Records, sort_rows};
use std::alloc::Global;
use std::marker::Model;

/// The records that the map of a source emits for these, each in the part of its key, and each part
/// sorted.
/// docs/SEMANTICS.md, "Parts".
pub fn spill<F: Functions>(
    alloc: Global,
    functions: &F,
    round: u32,
    step: u32,
    source: u32,
    rows: &Records,
    parts: u32,
) -> Result<Parts, Memory>
    requires { (1 ≤ parts) × (parts ≤ 64) }
    ensures parts { IfOk result (λ out. out ≡ spilled (F.meaning functions.now) round step source rows.now parts) }
    ensures in_order { IfOk result (AllByRecursion (Ascending record_cmp)) }
{
    let mut builder = SpillBuilder::new(alloc, parts, rows.len() / parts as usize)?;
    builder.add(alloc, functions, round, step, source, rows)?;
    builder.finish(alloc)
}

/// A spill in the making: the records so far, each in the part of its key, and no part sorted yet.
#[derive(Drop)]
pub struct SpillBuilder {
    parts: Vec<Records>,
}

impl Model for SpillBuilder {
    ghost use Rattle.std.specs.Prelude.{List};
    ghost use Rattle.hal_base.specs.declared.record.Record.{Record as Row};

    ghost Value = { List (List Row) };

    ghost view = { λ builder. builder.parts.items };
}

impl SpillBuilder {
    /// So many parts with no records, each with room for its share, and for some more.
    pub fn new(alloc: Global, parts: u32, share: usize) -> Result<SpillBuilder, Memory>
        ensures { IfOk result (λ builder. builder ≡ replicate parts []) }
    {
        let parts = empty_parts(alloc, parts, share)?;
        Ok(SpillBuilder { parts })
    }

    /// Adds what the map of a source emits for these records. After `Memory` a part of it may be
    /// there.
    pub fn add<F: Functions>(
        &mut self,
        alloc: Global,
        functions: &F,
        round: u32,
        step: u32,
        source: u32,
        rows: &Records,
    ) -> Result<(), Memory>
        ensures { OnOk result (self.new ≡ dealt (F.meaning functions.now) round step 0 self.old (stream ((F.meaning functions.now).map round step source) rows.now)) }
    {
        deal(alloc, functions, round, step, source, rows, &mut self.parts)
    }

    /// Adds these records, as a map does that emits each record as it is. Where there is one part, their
    /// list is taken over as it stands. After `Memory` a part of them may be there.
    pub fn add_rows<F: Functions>(
        &mut self,
        alloc: Global,
        functions: &F,
        round: u32,
        step: u32,
        rows: Records,
    ) -> Result<(), Memory>
        ensures { OnOk result (self.new ≡ dealt (F.meaning functions.now) round step 0 self.old rows) }
    {
        deal_rows(alloc, functions, round, step, rows, &mut self.parts)
    }

    /// The parts, each sorted.
    pub fn finish(self, alloc: Global) -> Result<Parts, Memory>
        ensures parts { IfOk result (λ parts. parts ≡ map (sorted record_cmp) self) }
        ensures in_order { IfOk result (AllByRecursion (Ascending record_cmp)) }
    {
        sort_parts(alloc, self.parts)
    }
}

/// So many parts with no records, each with room for its share and some more.
fn empty_parts(alloc: Global, parts: u32, share: usize) -> Result<Vec<Records>, Memory>
    ensures { IfOk result (λ out. out.items ≡ replicate parts []) }
{
    let room = share.saturating_add(share / 16).saturating_add(16);
    let mut out = Vec::with_capacity(alloc, parts as usize)?;
    'parts: for _part in 0..parts {
        let empty = Records::with_capacity(alloc, room)?;
        out.push(empty).map_err(|_| Memory)?;
    }
    Ok(out)
}

/// Maps the records one after another, and adds what is emitted to the parts.
fn deal<F: Functions>(
    alloc: Global,
    functions: &F,
    round: u32,
    step: u32,
    source: u32,
    rows: &Records,
    parts: &mut [Records],
) -> Result<(), Memory>
    ensures { OnOk result (parts.new ≡ dealt (F.meaning functions.now) round step 0 parts.old (stream ((F.meaning functions.now).map round step source) rows.now)) }
{
    // One list takes what each record emits in turn, so that none is made for a record.
    let mut emitted = Records::new(alloc);
    'rows: for row in rows.as_slice() {
        functions.map(alloc, round, step, source, row, &mut emitted)?;
        emitted = deal_emitted(alloc, functions, round, step, emitted, parts)?;
    }
    Ok(())
}

/// Moves the records to their parts, all at once where there is one part, and all belong to it.
fn deal_rows<F: Functions>(
    alloc: Global,
    functions: &F,
    round: u32,
    step: u32,
    rows: Records,
    parts: &mut [Records],
) -> Result<(), Memory>
    ensures { OnOk result (parts.new ≡ dealt (F.meaning functions.now) round step 0 parts.old rows) }
{
    if parts.len() == 1 && are_in_first(alloc, functions, round, step, rows.as_slice())? {
        return add_behind(rows, &mut parts[0]);
    }
    let _emptied = deal_emitted(alloc, functions, round, step, rows, parts)?;
    Ok(())
}

/// Whether all records belong to the first part.
fn are_in_first<F: Functions>(
    alloc: Global,
    functions: &F,
    round: u32,
    step: u32,
    rows: &[Record],
) -> Result<bool, Memory>
    ensures { IfOk result (λ all. all ≡ true → AllByRecursion (λ (row : Row). (F.meaning functions.now).partition round step row.key ≡ 0) rows.now) }
{
    'rows: for row in rows {
        if functions.partition(alloc, round, step, &row.key)? != 0 {
            return Ok(false);
        }
    }
    Ok(true)
}

/// Moves the records to their parts, and gives back the list with no records in it.
fn deal_emitted<F: Functions>(
    alloc: Global,
    functions: &F,
    round: u32,
    step: u32,
    emitted: Records,
    parts: &mut [Records],
) -> Result<Records, Memory>
    ensures emptied { IfOk result (λ left. left ≡ []) }
    ensures dealt { OnOk result (parts.new ≡ dealt (F.meaning functions.now) round step 0 parts.old emitted) }
{
    let mut left = emitted.into_vec();
    left.reverse();
    'rows: while let Some(row) = left.pop() {
        add_to_part(alloc, functions, round, step, row, parts)?;
    }
    Ok(Records::from_vec(left))
}

/// Adds records to a part, which takes their list as it stands where it has none yet.
fn add_behind(rows: Records, part: &mut Records) -> Result<(), Memory>
    ensures { OnOk result (part.new ≡ part.old ++ rows) }
{
    if part.len() == 0 {
        *part = rows;
        return Ok(());
    }
    let mut rows = rows;
    part.append(&mut rows)
}

/// Moves a record to the part of its key, if there is one.
fn add_to_part<F: Functions>(
    alloc: Global,
    functions: &F,
    round: u32,
    step: u32,
    row: Record,
    parts: &mut [Records],
) -> Result<(), Memory>
    ensures { OnOk result (parts.new ≡ dealt (F.meaning functions.now) round step 0 parts.old (row ∷ [])) }
{
    let number = functions.partition(alloc, round, step, &row.key)?;
    let at = number as usize;
    if at >= parts.len() {
        return Ok(());
    }
    parts[at].push(row)
}

fn sort_parts(alloc: Global, parts: Vec<Records>) -> Result<Parts, Memory>
    ensures { IfOk result (λ out. out ≡ map (sorted record_cmp) parts.items) }
{
    let mut out = Parts::with_capacity(alloc, parts.len())?;
    'parts: for rows in parts {
        out.push(sort_rows(rows))?;
    }
    Ok(out)
}
