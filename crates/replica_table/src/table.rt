ghost use Rattle.std.specs.Prelude.{◌≡◌, ℕ, ◌<◌, ◌≤◌, ◌==◌, ◌&&◌, [], length, slice_get, not, nat_lt, true, false, OnOk, OnErr, IfOk};
ghost use Rattle.std.specs.List.{filter, range_with_len};
ghost use Rattle.std.specs.Option.{option_copied};
ghost use Rattle.std.specs.Ordering.{nat_cmp};
ghost use Rattle.hal_base.specs.Sorted.{joined};
ghost use Rattle.replica_table.specs.Copies.{Replicas, but_file, but_node, but_those, copy_at, held, holders, is_name, names_of, with_copy};
ghost use Rattle.replica_table.specs.Listing.{files_of, those};
ghost use Rattle.replica_table.specs.Order.{AreInOrder};
ghost use Rattle.replica_table.specs.Sets.{Ascend, among, but_one, members};
ghost use Rattle.replica_table.specs.steps.Entries.{files_in, listed};

use crate::copied::{
    Copied, digest_on, nodes_of, push_files, same_names, take_node, take_of, take_those,
    with_copied,
};
use crate::file_on::FileOn;
use crate::name_test::NameTest;
use crate::node_set::NodeSet;
use hal_base::Memory;
use indexmap::IndexMap;
use node_names::{Digest, Name};
use std::alloc::Global;
use std::marker::Model;

/// Which nodes are up, and which node, up or down, holds a copy of which file. Names stand in the order in which they
/// came, each with its nodes ascending. docs/CLUSTER.md, "Copies".
#[derive(Drop)]
pub struct Table {
    alloc: Global,
    nodes: u32,
    up: NodeSet,
    copies: IndexMap<Name, Vec<Copied>>,
}

impl Model for Table {
    ghost use Rattle.replica_table.specs.Copies.{Replicas};
    ghost use Rattle.replica_table.specs.Sets.{members};
    ghost use Rattle.replica_table.specs.steps.Entries.{IsKept, copies_in};

    ghost Value = { Replicas };

    ghost view = { λ t. record { nodes = t.nodes; up = members t.up.0; copies = copies_in t.copies.entries } };

    ghost invariant = { λ t. IsKept t.nodes t.up.0 t.copies.entries };
}

impl Table {
    /// A table of so many nodes, all of them up, which hold nothing. More copies grow in this allocator.
    pub fn new(alloc: Global, nodes: u32) -> Result<Table, Memory>
        requires some { 1 ≤ nodes }
        requires few { nodes ≤ 64 }
        ensures nodes { IfOk result (λ table. table.nodes ≡ nodes) }
        ensures up { IfOk result (λ table. table.up ≡ range_with_len 0 nodes) }
        ensures copies { IfOk result (λ table. table.copies ≡ []) }
    {
        Ok(Table {
            alloc,
            nodes,
            up: NodeSet::below(nodes),
            copies: IndexMap::new(alloc),
        })
    }

    /// The node holds a copy of the file, with this digest, in the place of the one that it held. After `Memory` the
    /// table is as before.
    pub fn add(&mut self, name: &Name, node: u32, digest: &Digest) -> Result<(), Memory>
        requires { node < self.old.nodes }
        ensures added { OnOk result (self.new ≡ record self.old { copies = with_copy (copy_at name.now node digest.now) self.old.copies }) }
        ensures failed { OnErr result (self.new ≡ self.old) }
    {
        let new = Copied {
            node,
            digest: *digest,
        };
        let copies = with_copied(self.alloc, copies_of(&self.copies, name), new)?;
        self.copies.insert(*name, copies)?;
        Ok(())
    }

    /// The node no longer holds a copy of the file.
    pub fn strike(&mut self, name: &Name, node: u32)
        requires { node < self.old.nodes }
        ensures { self.new ≡ record self.old { copies = but_file name.now node self.old.copies } }
    {
        self.copies.retain(
            |other: &Name, list: &mut Vec<Copied>| -> bool
                ensures { (list.new.items ≡ filter (λ copied. not (is_name name.entry.now other.now && node == copied.node)) list.old.items) × (result ≡ nat_lt 0 (length list.new.items)) }
            { take_of(list, same_names(name, other), node) },
        );
    }

    /// No node of a set holds a copy any more of a file whose name passes the test.
    pub fn strike_those<T: NameTest>(&mut self, nodes: NodeSet, test: &T)
        ensures { self.new ≡ record self.old { copies = but_those (T.test test.now) (members nodes.0) self.old.copies } }
    {
        self.copies.retain(
            |name: &Name, list: &mut Vec<Copied>| -> bool
                ensures { (list.new.items ≡ filter (λ copied. not (T.test test.entry.now name.now && among copied.node (members nodes.0))) list.old.items) × (result ≡ nat_lt 0 (length list.new.items)) }
            { take_those(list, test.passes(name), nodes) },
        );
    }

    /// The files on the nodes of a set whose names pass the test, in the order of the copies.
    pub fn list_those<T: NameTest>(
        &self,
        alloc: Global,
        nodes: NodeSet,
        test: &T,
    ) -> Result<Vec<FileOn>, Memory>
        ensures listed { IfOk result (λ files. files.items ≡ files_of (those (T.test test.now) (members nodes.0) self.now.copies)) }
        ensures order { AreInOrder self.now.nodes self.now.copies }
    {
        files_of_those(alloc, &self.copies, nodes, test)
    }

    /// The node goes down, with its files.
    pub fn lose(&mut self, node: u32)
        requires there { node < self.old.nodes }
        requires up { among node self.old.up ≡ true }
        ensures { self.new ≡ record self.old { up = but_one node self.old.up } }
    {
        self.up = self.up.without(node);
    }

    /// The node comes back, with its files.
    pub fn back(&mut self, node: u32)
        requires there { node < self.old.nodes }
        requires down { among node self.old.up ≡ false }
        ensures { self.new ≡ record self.old { up = joined nat_cmp node self.old.up } }
    {
        self.up = self.up.with(node);
    }

    /// The files of the node, which is down, are gone.
    pub fn wipe(&mut self, node: u32)
        requires there { node < self.old.nodes }
        requires down { among node self.old.up ≡ false }
        ensures { self.new ≡ record self.old { copies = but_node node self.old.copies } }
    {
        self.copies.retain(
            |_name: &Name, list: &mut Vec<Copied>| -> bool
                ensures { (list.new.items ≡ filter (λ copied. not (node == copied.node)) list.old.items) × (result ≡ nat_lt 0 (length list.new.items)) }
            { take_node(list, node) },
        );
    }

    /// The nodes that are up and hold a copy of the file.
    pub fn where_is(&self, name: &Name) -> NodeSet
        ensures nodes { members result.0 ≡ holders name.now self.now }
        ensures order { Ascend 0 self.now.nodes (holders name.now self.now) }
    {
        nodes_of(copies_of(&self.copies, name)).both(self.up)
    }

    /// The digest of the copy on a node, up or down. `None` exactly where it holds none.
    pub fn held(&self, name: &Name, node: u32) -> Option<Digest>
        requires { node < self.now.nodes }
        ensures { result ≡ held name.now node self.now.copies }
    {
        digest_on(copies_of(&self.copies, name), node)
    }

    pub fn up(&self) -> NodeSet
        ensures nodes { members result.0 ≡ self.now.up }
        ensures order { Ascend 0 self.now.nodes self.now.up }
    {
        self.up
    }

    /// How many names there are of which some node, up or down, holds a copy.
    pub fn len(&self) -> usize
        ensures names { result ≡ length (names_of self.now.copies) }
        ensures order { AreInOrder self.now.nodes self.now.copies }
    {
        self.copies.len()
    }

    /// The name at a place, in the order in which they came, from 0. `None` exactly where the place is not below `len`.
    pub fn name_at(&self, i: usize) -> Option<&Name>
        ensures { option_copied result ≡ slice_get (names_of self.now.copies) i }
    {
        match self.copies.get_index(i) {
            Some((name, _)) => Some(name),
            None => None,
        }
    }
}

/// The copies of a file.
fn copies_of<'a>(copies: &'a IndexMap<Name, Vec<Copied>>, name: &Name) -> &'a [Copied]
    ensures { result.now ≡ listed name.now copies.now.entries }
{
    match copies.get(name) {
        Some(list) => list.as_slice(),
        None => &[],
    }
}

/// The files on some nodes whose names pass a test.
fn files_of_those<T: NameTest>(
    alloc: Global,
    copies: &IndexMap<Name, Vec<Copied>>,
    nodes: NodeSet,
    test: &T,
) -> Result<Vec<FileOn>, Memory>
    ensures { IfOk result (λ files. files.items ≡ files_in (T.test test.now) (members nodes.0) copies.now.entries) }
{
    let mut files = Vec::new(alloc);
    'names: for (name, list) in copies.iter() {
        if test.passes(name) {
            push_files(&mut files, name, list, nodes)?;
        }
    }
    Ok(files)
}
