ghost use Rattle.std.specs.Prelude.{◌≡◌, ℕ, ◌<◌, ◌==◌, ◌&&◌, ◌∷◌, ◌++◌, not, nat_lt, length, All, IfOk, IfSome, IfNone, OnOk};
ghost use Rattle.std.specs.List.{filter};
ghost use Rattle.replica_table.specs.Copies.{is_name};
ghost use Rattle.replica_table.specs.Sets.{Ascend, among, members};
ghost use Rattle.replica_table.specs.steps.Entries.{behind, files_on, found, nodes_in, placed};

use crate::file_on::FileOn;
use crate::node_set::{NodeSet, with_bit};
use hal_base::Memory;
use node_names::{Digest, Name};
use std::alloc::Global;

/// A copy of a file on a node, with its digest.
#[derive(Clone, Copy)]
pub struct Copied {
    pub node: u32,
    pub digest: Digest,
}

pub fn same_names(a: &Name, b: &Name) -> bool
    ensures { result ≡ is_name a.now b.now }
{
    *a == *b
}

/// The digest of the copy on a node.
pub fn digest_on(copies: &[Copied], node: u32) -> Option<Digest>
    ensures { result ≡ found node copies.now }
{
    'copies: for copied in copies {
        if node == copied.node {
            return Some(copied.digest);
        }
    }
    None
}

/// The nodes of some copies.
pub fn nodes_of(copies: &[Copied]) -> NodeSet
    requires below { All (λ copied. copied.node < 64) copies.now }
    requires ascending { Ascend 0 64 (nodes_in copies.now) }
    ensures { members result.0 ≡ nodes_in copies.now }
{
    let mut bits = 0;
    'copies: for copied in copies {
        bits = with_bit(bits, copied.node);
    }
    NodeSet(bits)
}

/// Copies and one more: behind those on lower nodes, in the place of the one on its node.
pub fn with_copied(alloc: Global, copies: &[Copied], new: Copied) -> Result<Vec<Copied>, Memory>
    ensures { IfOk result (λ list. list.items ≡ placed new copies.now) }
{
    let mut list = Vec::with_capacity(alloc, copies.len() + 1)?;
    let mut rest = copies;
    'lower: while let Some((copied, others)) = lower_first(rest, new) {
        list.push(copied)?;
        rest = others;
    }
    list.push(new)?;
    list.extend_from_slice(but_first_on(rest, new.node))?;
    Ok(list)
}

/// The first copy, if it lies on a lower node, and the others.
fn lower_first(copies: &[Copied], new: Copied) -> Option<(Copied, &[Copied])>
    ensures lower { IfSome result (λ cut. placed new copies.now ≡ cut.0 ∷ placed new cut.1.now) }
    ensures shorter { IfSome result (λ cut. length cut.1.now < length copies.now) }
    ensures none { IfNone result (placed new copies.now ≡ new ∷ behind new.node copies.now) }
{
    let Some((first, others)) = copies.split_first() else {
        return None;
    };
    if first.node < new.node {
        Some((*first, others))
    } else {
        None
    }
}

/// The copies but for the first, if it lies on this node.
fn but_first_on(copies: &[Copied], node: u32) -> &[Copied]
    ensures { result.now ≡ behind node copies.now }
{
    let Some((first, others)) = copies.split_first() else {
        return copies;
    };
    if node == first.node { others } else { copies }
}

/// Takes the copy on a node out, and tells whether others are left.
pub fn take_node(list: &mut Vec<Copied>, node: u32) -> bool
    ensures left { list.new.items ≡ filter (λ copied. not (node == copied.node)) list.old.items }
    ensures some { result ≡ nat_lt 0 (length list.new.items) }
{
    list.retain(
        |copied: &Copied| -> bool
            ensures { result ≡ not (node == copied.now.node) }
        { node != copied.node },
    );
    list.len() > 0
}

/// Takes the copy on a node out, if it is of the name that is meant, and tells whether others are left.
pub fn take_of(list: &mut Vec<Copied>, same: bool, node: u32) -> bool
    ensures left { list.new.items ≡ filter (λ copied. not (same && node == copied.node)) list.old.items }
    ensures some { result ≡ nat_lt 0 (length list.new.items) }
{
    list.retain(
        |copied: &Copied| -> bool
            ensures { result ≡ not (same && node == copied.now.node) }
        { !(same && node == copied.node) },
    );
    list.len() > 0
}

/// Takes the copies on some nodes out, if they are of a name that is meant, and tells whether others are left.
pub fn take_those(list: &mut Vec<Copied>, meant: bool, nodes: NodeSet) -> bool
    ensures left { list.new.items ≡ filter (λ copied. not (meant && among copied.node (members nodes.0))) list.old.items }
    ensures some { result ≡ nat_lt 0 (length list.new.items) }
{
    list.retain(
        |copied: &Copied| -> bool
            ensures { result ≡ not (meant && among copied.now.node (members nodes.0)) }
        { !(meant && nodes.has(copied.node)) },
    );
    list.len() > 0
}

/// Adds the files of a name on some nodes, by its copies.
pub fn push_files(
    files: &mut Vec<FileOn>,
    name: &Name,
    copies: &[Copied],
    nodes: NodeSet,
) -> Result<(), Memory>
    ensures { OnOk result (files.new.items ≡ files.old.items ++ files_on name.now (members nodes.0) copies.now) }
{
    'copies: for copied in copies {
        if nodes.has(copied.node) {
            files.push(FileOn {
                name: *name,
                node: copied.node,
            })?;
        }
    }
    Ok(())
}
