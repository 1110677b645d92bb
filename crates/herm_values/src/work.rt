//! What a process still has to do for the values that it finalised.
ghost use Rattle.std.specs.Prelude.{◌≡◌, ◌≤◌, ◌<◌, ◌+◌, ◌∷◌, ◌++◌, [], length, slice_get, option_map, option_to_list, IfNone, OnOk};
ghost use Rattle.herm_values.specs.Works.{item_view, waiting, spare};

use herm_base::{PortNo, ProcNo};
use std::alloc::{AllocError, Global};
use std::collections::VecDeque;

/// A port that is to be closed, or a call that is to be answered: the caller's number, and the number of its call.
#[derive(Debug, Drop)]
pub enum WorkItem {
    Close(PortNo),
    Answer(ProcNo, u64),
}

/// The work list of a process, from its front on. It is seen as the cells that wait on it, and as how many more find
/// room without memory.
#[derive(Drop)]
pub struct Work {
    items: VecDeque<WorkItem>,
}

impl Work {
    /// No work. It takes no memory.
    pub fn new(alloc: Global) -> Work
        ensures waiting { waiting result ≡ [] }
    {
        Work {
            items: VecDeque::new(alloc),
        }
    }

    /// Makes room for so many more.
    pub fn reserve(&mut self, n: usize) -> Result<(), AllocError>
        ensures waiting { waiting self.new ≡ waiting self.old }
        ensures spare { OnOk result (n ≤ spare self.new) }
        ensures kept { spare self.old ≤ spare self.new }
    {
        self.items.reserve(n)
    }

    /// How many wait.
    pub fn len(&self) -> usize
        ensures count { result ≡ length (waiting self.now) }
    {
        self.items.len()
    }

    /// What is to be done first, if there is work.
    pub fn front(&self) -> Option<&WorkItem>
        ensures first { option_map (λ i. item_view i.now) result ≡ slice_get (waiting self.now) 0 }
    {
        self.items.front()
    }

    /// Takes out what is to be done first, if there is work.
    pub fn take(&mut self) -> Option<WorkItem>
        ensures first { option_to_list (option_map item_view result) ++ waiting self.new ≡ waiting self.old }
        ensures none { IfNone result (waiting self.old ≡ []) }
        ensures spare { spare self.new ≡ spare self.old + length (option_to_list result) }
    {
        self.items.pop_front()
    }

    /// Puts an item behind the others. It takes no memory.
    pub fn put(&mut self, item: WorkItem)
        requires room { 0 < spare self.old }
        ensures waiting { waiting self.new ≡ waiting self.old ++ item_view item ∷ [] }
        ensures spare { spare self.new + 1 ≡ spare self.old }
    {
        self.items.push_back_reserved(item);
    }
}
