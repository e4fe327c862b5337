ghost use Rattle.std.specs.Prelude.{◌≡◌, ◌+◌, ◌%◌, ◌≤◌, ◌<◌};

/// The node that the copy `k` of a table's block is put on, of this many nodes. Tables, blocks and copies count from 0.
/// docs/CLUSTER.md, "Copies".
pub fn place(table: u32, block: u32, k: u32, nodes: u32) -> u32
    requires some { 1 ≤ nodes }
    requires few { nodes ≤ 64 }
    ensures node { result ≡ (table + block + k) % nodes }
    ensures within { result < nodes }
{
    let turn = table as u64 + block as u64 + k as u64;
    (turn % nodes as u64) as u32
}
