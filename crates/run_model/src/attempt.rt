use node_names::Task;

/// An attempt at a task, and the node that runs it.
#[derive(Clone, Copy)]
pub struct Attempt {
    pub task: Task,
    pub node: u32,
}

/// How many attempts at a task failed.
#[derive(Clone, Copy)]
pub struct Failed {
    pub task: Task,
    pub count: u32,
}
