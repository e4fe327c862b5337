ghost use Rattle.std.specs.Prelude.{◌≡◌, length};
ghost use Rattle.hal_base.specs.Shapes.{IsWellFormed};
ghost use Rattle.replica_table.specs.Copies.{up_holders};
ghost use Rattle.replica_table.specs.Sets.{members};
ghost use Rattle.run_model.specs.State.{bare};
ghost use Rattle.loop_scheduler.specs.Views.{AreAmong, IsCounted, view_over};

use hal_base::Shape;
use node_names::Name;
use replica_table::{NodeSet, Table};
use std::marker::Model;

/// What placement looks at: a program's shape, which node holds what, and which nodes are idle. docs/CLUSTER.md, "Where a
/// task goes".
#[derive(Drop)]
pub struct View<'a> {
    shape: &'a Shape,
    table: &'a Table,
    idle: NodeSet,
}

impl<'a> Model for View<'a> {
    ghost use Rattle.run_model.specs.Needs.{View as Seen};
    ghost use Rattle.replica_table.specs.Sets.{members};
    ghost use Rattle.run_model.specs.State.{bare};
    ghost use Rattle.loop_scheduler.specs.Views.{AreAmong, IsCounted};

    ghost Value = { Seen };

    ghost view = { λ v. record { shape = v.shape.now; copies = bare v.table.now.copies; up = v.table.now.up; idle = members v.idle.0 } };

    ghost invariant = { λ v. IsCounted v.shape.now × AreAmong (members v.idle.0) v.table.now.up };
}

impl<'a> View<'a> {
    /// Of the nodes that are called idle, those that are up count.
    pub fn new(shape: &'a Shape, table: &'a Table, idle: NodeSet) -> View<'a>
        requires { IsCounted shape.now }
        ensures { result ≡ view_over shape.now table.now (members idle.0) }
    {
        View {
            shape,
            table,
            idle: idle.both(table.up()),
        }
    }

    pub fn shape(&self) -> &'a Shape
        ensures same { result.now ≡ self.now.shape }
        ensures counted { IsCounted self.now.shape }
    {
        self.shape
    }

    pub fn table(&self) -> &'a Table
        ensures copies { bare result.now.copies ≡ self.now.copies }
        ensures up { result.now.up ≡ self.now.up }
    {
        self.table
    }

    /// The nodes that are up and hold a copy of the file.
    pub fn where_is(&self, name: &Name) -> NodeSet
        ensures { members result.0 ≡ up_holders name.now self.now.up self.now.copies }
    {
        self.table.where_is(name)
    }

    /// The nodes that are up and idle.
    pub fn idle(&self) -> NodeSet
        ensures nodes { members result.0 ≡ self.now.idle }
        ensures up { AreAmong self.now.idle self.now.up }
    {
        self.idle
    }
}
