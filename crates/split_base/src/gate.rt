// The trait of gates, objects of the outside that are called as workers begin and end tasks, so that tests can hold a worker up.

/// Is told when a worker begins and ends the walk of a task. Each walk comes between the two calls,
/// and in the search of a block each task is walked at most once. If workers begin again a block
/// of which the calling thread has walked a little alone, both calls are made once more for the
/// tasks that it had begun. Neither call is made for a task that nobody begins because the block's
/// steps have run out. A gate may hold a worker up, so tests can choose the order in which workers
/// go on. It answers nothing, so no result depends on it.
pub trait Gate {
    /// A worker is about to walk this task.
    fn enter(&self, task: u32);

    /// The walk of this task has ended.
    fn leave(&self, task: u32);
}

/// The gate that does nothing.
#[derive(Clone, Copy, Debug)]
pub struct Quiet;

impl Gate for Quiet {
    fn enter(&self, _task: u32) {}

    fn leave(&self, _task: u32) {}
}
