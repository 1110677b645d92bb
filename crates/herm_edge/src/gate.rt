// What a worker calls before a turn.

/// Called before each turn of a worker, with the worker's number and the task's. It has no meaning.
/// (Language reference, "The outside".)
pub trait Gate {
    /// A worker is about to give a task a turn.
    fn turn(&self, worker: u32, task: u32);
}

/// A gate that is always open: `turn` returns at once.
#[derive(Clone, Copy, Debug, Default, PartialEq, Eq)]
pub struct FreeGate;

impl Gate for FreeGate {
    fn turn(&self, _worker: u32, _task: u32) {}
}
