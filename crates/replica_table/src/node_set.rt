ghost use Rattle.std.specs.Prelude.{◌≡◌, ℕ, ◌<◌, ◌≤◌, ◌==◌, ◌&&◌, ◌||◌, not, nat_lt, [], length, slice_get, true, IfSome};
ghost use Rattle.std.specs.List.{filter, range_with_len};
ghost use Rattle.std.specs.Ordering.{nat_cmp};
ghost use Rattle.hal_base.specs.Sorted.{joined};
ghost use Rattle.replica_table.specs.Sets.{among, but_one, is_in, members};

/// A set of nodes below 64: bit n stands for node n.
#[derive(Clone, Copy)]
pub struct NodeSet(pub u64);

impl NodeSet {
    pub fn empty() -> NodeSet
        ensures { members result.0 ≡ [] }
    {
        NodeSet(0)
    }

    /// The nodes below a number.
    pub fn below(nodes: u32) -> NodeSet
        requires some { 1 ≤ nodes }
        requires few { nodes ≤ 64 }
        ensures { members result.0 ≡ range_with_len 0 nodes }
    {
        NodeSet(u64::MAX >> (64 - nodes))
    }

    pub fn has(&self, node: u32) -> bool
        ensures { result ≡ among node (members self.now.0) }
    {
        node < 64 && has_bit(self.0, node)
    }

    /// How many nodes are in the set.
    pub fn count(&self) -> u32
        ensures { result ≡ length (members self.now.0) }
    {
        self.0.count_ones()
    }

    /// The node at place `k` of the set, ascending, from 0. `None` exactly where `k` is not below the count.
    pub fn nth(&self, k: u32) -> Option<u32>
        ensures place { result ≡ slice_get (members self.now.0) k }
        ensures member { IfSome result (λ node. among node (members self.now.0) ≡ true) }
    {
        let bits = self.0;
        let mut left = k;
        'nodes: for node in 0..64 {
            if has_bit(bits, node) {
                if left == 0 {
                    return Some(node);
                }
                left -= 1;
            }
        }
        None
    }

    /// The set and one more node.
    pub fn with(&self, node: u32) -> NodeSet
        requires { node < 64 }
        ensures { members result.0 ≡ joined nat_cmp node (members self.now.0) }
    {
        NodeSet(with_bit(self.0, node))
    }

    /// The set but for one node.
    pub fn without(&self, node: u32) -> NodeSet
        requires { node < 64 }
        ensures { members result.0 ≡ but_one node (members self.now.0) }
    {
        NodeSet(without_bit(self.0, node))
    }

    /// The nodes that are in both sets.
    pub fn both(&self, other: NodeSet) -> NodeSet
        ensures { members result.0 ≡ filter (λ node. among node (members other.0)) (members self.now.0) }
    {
        NodeSet(bits_of_both(self.0, other.0))
    }

    /// The nodes that are in one of the sets.
    pub fn either(&self, other: NodeSet) -> NodeSet
        ensures { members result.0 ≡ filter (λ node. among node (members self.now.0) || among node (members other.0)) (range_with_len 0 64) }
    {
        NodeSet(bits_of_either(self.0, other.0))
    }
}

fn has_bit(bits: u64, node: u32) -> bool
    requires { node < 64 }
    ensures { result ≡ is_in bits node }
{
    (bits >> node) & 1 == 1
}

/// The bits of a set and one more node.
pub fn with_bit(bits: u64, node: u32) -> u64
    requires { node < 64 }
    ensures { (n : ℕ) → is_in result n ≡ (n == node || is_in bits n) }
{
    bits | (1 << node)
}

fn without_bit(bits: u64, node: u32) -> u64
    requires { node < 64 }
    ensures { (n : ℕ) → n < 64 → is_in result n ≡ (not (n == node) && is_in bits n) }
{
    bits & !(1 << node)
}

fn bits_of_either(bits: u64, others: u64) -> u64
    ensures { (n : ℕ) → is_in result n ≡ (is_in bits n || is_in others n) }
{
    bits | others
}

fn bits_of_both(bits: u64, others: u64) -> u64
    ensures { (n : ℕ) → is_in result n ≡ (is_in bits n && is_in others n) }
{
    bits & others
}
