//! The entries of one process.
ghost use Rattle.std.specs.Prelude.{◌≡◌, ◌++◌, ◌∷◌, [], ◌<◌, ◌≤◌, ◌-◌, OnOk, OnErr};
ghost use Rattle.herm_journal.specs.Journals.{IsRising};
ghost use Rattle.herm_events.specs.Rising.{IsAboveLast, AreOfProcess};
ghost use Rattle.herm_events.specs.View.{entry_view, entries_view};

use crate::Entry;
use herm_base::ProcNo;
use std::alloc::{AllocError, Global};
use std::marker::Model;

/// What a process did, in order: its entries, whose stamps rise, and for how many more memory has been taken.
#[derive(Debug, Drop)]
pub struct Diary {
    proc: ProcNo,
    recorded: Vec<Entry>,
}

impl Model for Diary {
    ghost use Rattle.std.specs.Prelude.{◌-◌, vec_len, vec_capacity};
    ghost use Rattle.herm_events.specs.Rising.{DiaryState, AreOfProcess};
    ghost use Rattle.herm_events.specs.View.{entries_view};

    ghost Value = { DiaryState };

    ghost view = { λ d. record { process = d.proc.number; entries = entries_view d.recorded.items; room = vec_capacity d.recorded - vec_len d.recorded } };

    ghost invariant = { λ d. AreOfProcess d.proc.number (entries_view d.recorded.items) };
}

impl Diary {
    /// The diary of a process that has done nothing. It takes no memory.
    pub fn new(alloc: Global, proc: ProcNo) -> Diary
        ensures process { result.process ≡ proc.number }
        ensures entries { result.entries ≡ [] }
    {
        Diary {
            proc,
            recorded: Vec::new(alloc),
        }
    }

    /// Makes room for one entry.
    pub fn reserve(&mut self) -> Result<(), AllocError>
        ensures process { self.new.process ≡ self.old.process }
        ensures entries { self.new.entries ≡ self.old.entries }
        ensures ok { OnOk result (1 ≤ self.new.room) }
        ensures room { self.old.room ≤ self.new.room }
        ensures err { OnErr result (self.new ≡ self.old) }
    {
        self.recorded.reserve(1)
    }

    /// Puts an entry of the process behind the others, for which there is room.
    pub fn push(&mut self, entry: Entry)
        requires room { 0 < self.old.room }
        requires process { (entry_view entry).process ≡ self.old.process }
        requires above { IsAboveLast (entry_view entry).stamp self.old.entries }
        ensures pushed { self.new ≡ record self.old { entries = self.old.entries ++ entry_view entry ∷ []; room = self.old.room - 1 } }
    {
        self.recorded.push_reserved(entry);
    }

    /// The entries in order. They are of the process, and their stamps rise.
    #[tactic(auto, using(crate::proofs::Appended::rise_is_rising))]
    pub fn entries(&self) -> &[Entry]
        ensures entries { entries_view result.now ≡ self.now.entries }
        ensures kept { AreOfProcess self.now.process self.now.entries }
        ensures rising { IsRising self.now.entries }
    {
        self.recorded.as_slice()
    }

    /// The entries alone, in order. It takes no memory.
    #[tactic(auto, using(crate::proofs::Appended::rise_is_rising))]
    pub fn into_entries(self) -> Vec<Entry>
        ensures entries { entries_view result.items ≡ self.entries }
        ensures kept { AreOfProcess self.process self.entries }
        ensures rising { IsRising self.entries }
    {
        self.recorded
    }
}
