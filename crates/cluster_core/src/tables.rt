ghost use Rattle.std.specs.Prelude.{◌≡◌};
ghost use Rattle.std.specs.List.{list_all};
ghost use Rattle.loop_scheduler.specs.Views.{IsCounted};
ghost use Rattle.run_model.specs.Needs.{is_up};
ghost use Rattle.run_model.specs.State.{bare};
ghost use Rattle.node_names.specs.declared.name.Name.TheVariants.{Out};
ghost use Rattle.run_model.specs.Tasks.{last_outs};

use hal_base::Shape;
use loop_scheduler::last_step;
use node_names::Name;
use replica_table::Table;

/// Whether an up node holds the file.
pub fn is_up(table: &Table, name: &Name) -> bool
    ensures { result ≡ is_up (bare table.now.copies) table.now.up name.now }
{
    table.where_is(name).count() > 0
}

/// Whether each part of the last step in a round lies on an up node.
pub fn parts_are_up(table: &Table, shape: &Shape, round: u32) -> bool
    requires { IsCounted shape.now }
    ensures { result ≡ list_all (is_up (bare table.now.copies) table.now.up) (last_outs shape.now round) }
{
    let step = last_step(shape);
    'parts: for part in 0..shape.parts {
        if !part_is_up(table, round, step, part) {
            return false;
        }
    }
    true
}

fn part_is_up(table: &Table, round: u32, step: u32, part: u32) -> bool
    ensures { result ≡ is_up (bare table.now.copies) table.now.up (Out round step part) }
{
    is_up(table, &Name::Out { round, step, part })
}
