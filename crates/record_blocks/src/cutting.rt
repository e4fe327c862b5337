ghost use Rattle.std.specs.Prelude.{◌≡◌, ◌≤◌, IfOk};
ghost use Rattle.record_blocks.specs.Pieces.{AreCut};

use hal_base::{CopyIn, Memory, Parts, Record, Records};
use std::alloc::Global;

/// Consecutive pieces of so many records, the last of which has some records and at most so many. Of no
/// records there is no piece. docs/CLUSTER.md, "Blocks".
pub fn cut(alloc: Global, rows: &Records, size: u32) -> Result<Parts, Memory>
    requires { 1 ≤ size }
    ensures { IfOk result (AreCut size rows.now) }
{
    let most = size as usize;
    let mut pieces = Parts::with_capacity(alloc, (rows.len() / most).saturating_add(1))?;
    let mut left = rows.as_slice();
    'pieces: while left.len() > 0 {
        let (piece, others) = left.split_at(most.min(left.len()));
        let copied = copy_of(alloc, piece)?;
        pieces.push(copied)?;
        left = others;
    }
    Ok(pieces)
}

fn copy_of(alloc: Global, rows: &[Record]) -> Result<Records, Memory>
    ensures { IfOk result (λ copied. copied ≡ rows.now) }
{
    let mut copied = Records::with_capacity(alloc, rows.len())?;
    'rows: for row in rows {
        copied.push(row.copy(alloc)?)?;
    }
    Ok(copied)
}
