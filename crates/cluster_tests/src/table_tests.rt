// The table of copies over two nodes, and where the copies of blocks go.
ghost use Rattle.std.specs.Prelude.{true, false};
ghost use Rattle.node_names.specs.declared.name.Name.TheVariants.{Blk, Spill, Out, Ric, Mic, Roc};

use node_names::{Digest, Name, NameKind};
use replica_table::{NameTest, NodeSet, Table, place};
use std::test::Fail;

/// Names of blocks pass.
struct AreBlocks;

impl NameTest for AreBlocks {
    ghost test = { λ it. elim [ Blk t b ↦ true | Spill i j s q ↦ false | Out i j p ↦ false | Ric j s p ↦ false | Mic t b ↦ false | Roc i p ↦ false ] };

    fn passes(&self, name: &Name) -> bool {
        name.kind() == NameKind::Blk
    }
}

/// The name `blk-0-0`.
fn first_block() -> Name {
    Name::Blk { table: 0, block: 0 }
}

#[test]
fn a_table_keeps_what_is_lost_until_it_is_wiped(rt: HostRuntime) -> Result<(), Fail> {
    let block = first_block();
    let digest = Digest([7; 32]);
    let mut table = Table::new(rt.alloc(), 2)?;
    table.add(&block, 1, &digest)?;
    assert!(rt; table.where_is(&block).nth(0) == Some(1) && table.where_is(&block).count() == 1);
    assert!(rt; table.len() == 1 && table.name_at(0) == Some(&block) && table.name_at(1).is_none());
    table.lose(1);
    assert!(rt; table.where_is(&block).count() == 0 && table.held(&block, 1) == Some(digest));
    table.wipe(1);
    assert!(rt; table.held(&block, 1).is_none() && table.len() == 0);
    table.back(1);
    assert!(rt; table.up().count() == 2 && table.up().has(1) && !table.up().has(64));
    Ok(())
}

#[test]
fn copies_of_some_names_are_struck(rt: HostRuntime) -> Result<(), Fail> {
    let block = first_block();
    let part = Name::Roc { round: 1, part: 0 };
    let digest = Digest([7; 32]);
    let mut table = Table::new(rt.alloc(), 2)?;
    table.add(&block, 1, &digest)?;
    table.add(&part, 1, &digest)?;
    table.add(&block, 0, &digest)?;
    table.strike_those(NodeSet::empty().with(1), &AreBlocks);
    assert!(rt; table.where_is(&block).nth(0) == Some(0) && table.where_is(&block).count() == 1);
    assert!(rt; table.where_is(&part).has(1) && table.name_at(1) == Some(&part));
    table.strike(&block, 0);
    assert!(rt; table.len() == 1 && table.name_at(0) == Some(&part));
    Ok(())
}

#[test]
fn copies_go_round_the_nodes(rt: HostRuntime) -> Result<(), Fail> {
    assert!(rt; place(0, 0, 1, 2) == 1 && place(1, 1, 0, 2) == 0 && place(1, 1, 1, 3) == 0);
    assert!(rt; place(u32::MAX, u32::MAX, u32::MAX, 64) == 61 && place(9, 9, 9, 1) == 0);
    Ok(())
}
