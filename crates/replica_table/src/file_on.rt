use node_names::Name;

/// The file of a name on a node.
#[derive(Clone, Copy)]
pub struct FileOn {
    pub name: Name,
    pub node: u32,
}
