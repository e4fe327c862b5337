ghost use Rattle.std.specs.Prelude.{◌≡◌};
ghost use Rattle.replica_table.specs.Sets.{members};
ghost use Rattle.run_model.specs.Lists.{in_turn};
ghost use Rattle.run_model.specs.Sites.{in_turn_of};
ghost use Rattle.loop_scheduler.specs.steps.Choosing.{first_in_most, or_in_turn};

use crate::holder_sets::HolderSets;
use replica_table::NodeSet;

/// The k-th of the nodes, counted round and round.
fn in_turn(k: u32, nodes: NodeSet) -> Option<u32>
    ensures { result ≡ in_turn k (members nodes.0) }
{
    let count = nodes.count();
    if count == 0 {
        None
    } else {
        nodes.nth(k % count)
    }
}

/// The k-th of the holders, or of all nodes where there is no holder, counted round and round.
pub fn holder_in_turn(k: u32, holders: NodeSet, nodes: NodeSet) -> Option<u32>
    ensures { result ≡ in_turn_of k (members holders.0) (members nodes.0) }
{
    if holders.count() == 0 {
        in_turn(k, nodes)
    } else {
        in_turn(k, holders)
    }
}

/// The lowest of the nodes that are in the most of the sets; where none is in any, the k-th node, counted round and round.
pub fn most_favoured(k: u32, sets: &HolderSets, nodes: NodeSet) -> Option<u32>
    ensures { result ≡ or_in_turn (first_in_most sets.now (members nodes.0)) k (members nodes.0) }
{
    match in_most(sets, nodes) {
        Some(node) => Some(node),
        None => in_turn(k, nodes),
    }
}

/// The lowest of the nodes that are in the most of the sets. `None` where none is in any.
fn in_most(sets: &HolderSets, nodes: NodeSet) -> Option<u32>
    ensures { result ≡ first_in_most sets.now (members nodes.0) }
{
    let mut best = None;
    let mut most = 0;
    'nodes: for node in 0..64 {
        if nodes.has(node) {
            let count = sets.sets_with(node);
            if most < count {
                best = Some(node);
                most = count;
            }
        }
    }
    best
}
