//! The entries at one place.
ghost use Rattle.std.specs.Prelude.{◌≡◌, ◌++◌, ◌∷◌, [], ◌<◌, ◌≤◌, ◌-◌, OnOk, OnErr};
ghost use Rattle.herm_journal.specs.Journals.{IsRising};
ghost use Rattle.herm_events.specs.Rising.{IsAboveLast, AreOfPlace};
ghost use Rattle.herm_events.specs.View.{entry_view, entries_view, place_view};

use crate::{Entry, Place};
use std::alloc::{AllocError, Global};
use std::marker::Model;

/// What was done at a place, in order: the entries, whose stamps rise, and for how many more memory has been taken.
#[derive(Debug, Drop)]
pub struct History {
    place: Place,
    recorded: Vec<Entry>,
}

impl Model for History {
    ghost use Rattle.std.specs.Prelude.{◌-◌, vec_len, vec_capacity};
    ghost use Rattle.herm_events.specs.Rising.{HistoryState, AreOfPlace};
    ghost use Rattle.herm_events.specs.View.{entries_view, place_view};

    ghost Value = { HistoryState };

    ghost view = { λ h. record { place = place_view h.place; entries = entries_view h.recorded.items; room = vec_capacity h.recorded - vec_len h.recorded } };

    ghost invariant = { λ h. AreOfPlace (place_view h.place) (entries_view h.recorded.items) };
}

impl History {
    /// The history of a place at which nothing was done. It takes no memory.
    pub fn new(alloc: Global, place: Place) -> History
        ensures place { result.place ≡ place_view place }
        ensures entries { result.entries ≡ [] }
    {
        History {
            place,
            recorded: Vec::new(alloc),
        }
    }

    /// Makes room for one entry.
    pub fn reserve(&mut self) -> Result<(), AllocError>
        ensures place { self.new.place ≡ self.old.place }
        ensures entries { self.new.entries ≡ self.old.entries }
        ensures ok { OnOk result (1 ≤ self.new.room) }
        ensures room { self.old.room ≤ self.new.room }
        ensures err { OnErr result (self.new ≡ self.old) }
    {
        self.recorded.reserve(1)
    }

    /// Puts an entry at the place behind the others, for which there is room.
    pub fn push(&mut self, entry: Entry)
        requires room { 0 < self.old.room }
        requires place { (entry_view entry).place ≡ self.old.place }
        requires above { IsAboveLast (entry_view entry).stamp self.old.entries }
        ensures pushed { self.new ≡ record self.old { entries = self.old.entries ++ entry_view entry ∷ []; room = self.old.room - 1 } }
    {
        self.recorded.push_reserved(entry);
    }

    /// The entries in order. They are at the place, and their stamps rise.
    #[tactic(auto, using(crate::proofs::Appended::rise_is_rising))]
    pub fn entries(&self) -> &[Entry]
        ensures entries { entries_view result.now ≡ self.now.entries }
        ensures kept { AreOfPlace self.now.place self.now.entries }
        ensures rising { IsRising self.now.entries }
    {
        self.recorded.as_slice()
    }
}
