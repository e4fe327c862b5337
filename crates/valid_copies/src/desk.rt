use hal_base::Shape;
use replica_table::Table;
use std::marker::Model;

/// Where an attempt reads: the shape, the copies, its own node, and the part of which it reads sections.
#[derive(Drop)]
pub struct Desk<'a> {
    pub shape: &'a Shape,
    pub table: &'a Table,
    pub own: u32,
    pub part: u32,
}

impl<'a> Model for Desk<'a> {
    ghost use Rattle.valid_copies.specs.Files.{Desk as SeenDesk};

    ghost Value = { SeenDesk };

    ghost view = { λ d. record { shape = d.shape.now; table = d.table.now; own = d.own; part = d.part } };
}
