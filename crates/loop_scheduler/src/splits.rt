ghost use Rattle.std.specs.Prelude.{◌≡◌, [], ◌∷◌, slice_index, MatchOption};
ghost use Rattle.hal_base.specs.Shapes.{IsWellFormed, source_at};
ghost use Rattle.run_model.specs.Tasks.{count_in, split, split_count, split_of};

use crate::sources::last_step;
use hal_base::{Origin, Shape};
use node_names::Name;
use run_model::source_of;

/// What a map reads: this split of a source of a step, in a round. `None` exactly where the shape has no such source.
/// Rounds, steps and sources count from 1, splits from 0. docs/CLUSTER.md, "Rounds and splits".
pub fn split_of(shape: &Shape, round: u32, step: u32, source: u32, number: u32) -> Option<Name>
    requires { IsWellFormed shape.now }
    ensures { MatchOption result (split shape.now round step source number ≡ []) (λ name. split shape.now round step source number ≡ name ∷ []) }
{
    match source_of(shape, step, source) {
        Some(it) => Some(split_from(shape, round, step, it.from, number)),
        None => None,
    }
}

fn split_from(shape: &Shape, round: u32, step: u32, from: Origin, number: u32) -> Name
    requires { IsWellFormed shape.now }
    ensures { result ≡ split_of shape.now round step from number }
{
    match from {
        Origin::State if round == 1 => Name::Blk {
            table: shape.start,
            block: number,
        },
        Origin::State => Name::Out {
            round: round.saturating_sub(1),
            step: last_step(shape),
            part: number,
        },
        Origin::Prev => Name::Out {
            round,
            step: step.saturating_sub(1),
            part: number,
        },
        Origin::Table { table, .. } => Name::Blk {
            table,
            block: number,
        },
    }
}

/// How many splits a source of a step has in a round: none where the shape has no such source.
pub fn split_count(shape: &Shape, round: u32, step: u32, source: u32) -> u32
    ensures { result ≡ count_in shape.now round (source_at shape.now step source) }
{
    match source_of(shape, step, source) {
        Some(it) => count_from(shape, round, it.from),
        None => 0,
    }
}

fn count_from(shape: &Shape, round: u32, from: Origin) -> u32
    ensures { result ≡ split_count shape.now round from }
{
    match from {
        Origin::State if round == 1 => blocks_of(shape, shape.start),
        Origin::State | Origin::Prev => shape.parts,
        Origin::Table { table, only: None } => blocks_of(shape, table),
        Origin::Table {
            table,
            only: Some(only),
        } => {
            if round == only {
                blocks_of(shape, table)
            } else {
                0
            }
        }
    }
}

/// How many blocks a table has.
fn blocks_of(shape: &Shape, table: u32) -> u32
    ensures { result ≡ slice_index shape.now.blocks table }
{
    match shape.blocks.get(table as usize) {
        Some(count) => *count,
        None => 0,
    }
}
