ghost use Rattle.std.specs.Prelude.{◌≡◌, ◌<◌, ◌++◌, [], ◌∷◌, length};
ghost use Rattle.replica_table.specs.Sets.{members};
ghost use Rattle.loop_scheduler.specs.steps.Choosing.{sets_with};

use replica_table::NodeSet;
use std::marker::Model;

/// A few sets of nodes: the holders of one name after another.
#[derive(Drop)]
pub struct HolderSets {
    sets: [NodeSet; 64],
    count: usize,
}

impl Model for HolderSets {
    ghost use Rattle.std.specs.Prelude.{ℕ, List, map, take, ◌≤◌};
    ghost use Rattle.replica_table.specs.declared.node_set.NodeSet.{NodeSet as Bits};
    ghost use Rattle.replica_table.specs.Sets.{members};

    ghost Value = { List (List ℕ) };

    ghost view = { λ h. map (λ (set : Bits). members set.0) (take h.count h.sets) };

    ghost invariant = { λ h. h.count ≤ 64 };
}

impl HolderSets {
    pub fn new() -> HolderSets
        ensures { result ≡ [] }
    {
        HolderSets {
            sets: [NodeSet::empty(); 64],
            count: 0,
        }
    }

    pub fn push(&mut self, set: NodeSet)
        requires { length self.old < 64 }
        ensures { self.new ≡ self.old ++ members set.0 ∷ [] }
    {
        self.sets[self.count] = set;
        self.count += 1;
    }

    /// In how many of the sets the node is.
    pub fn sets_with(&self, node: u32) -> usize
        ensures { result ≡ sets_with self.now node }
    {
        let mut found = 0;
        'sets: for set in &self.sets[..self.count] {
            if set.has(node) {
                found += 1;
            }
        }
        found
    }
}
