ghost use Rattle.std.specs.Prelude.{◌≡◌, ℕ, List};
ghost use Rattle.hal_base.specs.declared.record.Record.{Record as Row};
ghost use Rattle.hal_base.specs.declared.shape.Shape.{Shape};
ghost use Rattle.hal_base.specs.Meaning.{Meaning};
ghost use Rattle.plain_job.specs.Chain.{table_at};
ghost use Rattle.memory_run.specs.steps.Inputs.{Serve, emptied};

use crate::inputs::{StepInputs, is_read};
use hal_base::{Origin, Records};
use std::alloc::Global;
use std::mem;

/// Gives up a table, unless a source is to read it again.
pub(crate) fn release(alloc: Global, number: u32, tables: &mut [Records], plan: &[StepInputs])
    ensures serve { (m : Meaning) (shape : Shape) (real : List (List Row)) → Serve m shape real tables.old plan.now → Serve m shape real tables.new plan.now }
    ensures others { (t : ℕ) → (t ≡ number → ⊥) → table_at tables.new t ≡ table_at tables.old t }
{
    let place = Origin::Table {
        table: number,
        only: None,
    };
    if !is_read(&place, plan) {
        let _released = take_table(alloc, number, tables);
    }
}

/// Takes a table out, of which no records are left. It has none where there is no such table.
pub(crate) fn take_table(alloc: Global, number: u32, tables: &mut [Records]) -> Records
    ensures table { result ≡ table_at tables.old number }
    ensures left { tables.new ≡ emptied tables.old number }
{
    let at = number as usize;
    if at < tables.len() {
        let table = &mut tables[at];
        mem::replace(table, Records::new(alloc))
    } else {
        Records::new(alloc)
    }
}
