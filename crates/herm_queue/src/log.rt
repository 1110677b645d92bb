//! A history with the clock of its place.
ghost use Rattle.std.specs.Prelude.{◌≡◌, ◌<◌, ◌≤◌, ◌^◌, [], suc, max, OnOk};
ghost use Rattle.herm_events.specs.View.{place_view, action_view};
ghost use Rattle.herm_queue.specs.LogStates.{with_action};

use herm_base::ProcNo;
use herm_events::{Action, Entry, History, Place, Stamp, next_stamp};
use std::alloc::{AllocError, Global};
use std::marker::Model;

/// The entries at a place, with its clock: the stamp of the last one, or 0.
#[derive(Drop)]
pub struct Log {
    clock: Stamp,
    history: History,
}

impl Model for Log {
    ghost use Rattle.std.specs.Prelude.{suc};
    ghost use Rattle.herm_events.specs.Rising.{IsAboveLast};
    ghost use Rattle.herm_queue.specs.LogStates.{LogState};

    ghost Value = { LogState };

    ghost view = { λ l. record { place = l.history.place; clock = l.clock.0; entries = l.history.entries; room = l.history.room } };

    ghost invariant = { λ l. IsAboveLast (suc l.clock.0) l.history.entries };
}

impl Log {
    /// The log of a place at which nothing was done. It takes no memory.
    pub fn new(alloc: Global, place: Place) -> Log
        ensures place { result.place ≡ place_view place }
        ensures clock { result.clock ≡ 0 }
        ensures entries { result.entries ≡ [] }
    {
        Log {
            clock: Stamp(0),
            history: History::new(alloc, place),
        }
    }

    /// Makes room for one entry.
    pub fn reserve(&mut self) -> Result<(), AllocError>
        ensures place { self.new.place ≡ self.old.place }
        ensures clock { self.new.clock ≡ self.old.clock }
        ensures entries { self.new.entries ≡ self.old.entries }
        ensures ok { OnOk result (1 ≤ self.new.room) }
        ensures room { self.old.room ≤ self.new.room }
    {
        self.history.reserve()
    }

    /// Records an action of a process with this clock at the place, for which there is room: the stamp is one more than
    /// the larger of the two clocks.
    pub fn record_action(
        &mut self,
        place: Place,
        who: ProcNo,
        clock: Stamp,
        action: Action,
    ) -> Stamp
        requires room { 1 ≤ self.old.room }
        requires place { place_view place ≡ self.old.place }
        requires process_clock { clock.0 < 2 ^ 63 }
        requires place_clock { self.old.clock < 2 ^ 63 }
        ensures recorded { self.new ≡ with_action who.number clock.0 (action_view action) self.old }
        ensures stamp { result.0 ≡ suc (max clock.0 self.old.clock) }
    {
        let stamp = next_stamp(clock, self.clock);
        self.clock = stamp;
        self.history.push(Entry {
            stamp,
            proc: who,
            place,
            action,
        });
        stamp
    }

    /// The place's clock.
    pub fn clock(&self) -> Stamp
        ensures clock { result.0 ≡ self.now.clock }
    {
        self.clock
    }

    /// The history.
    pub fn history(&self) -> &History
        ensures place { result.now.place ≡ self.now.place }
        ensures entries { result.now.entries ≡ self.now.entries }
    {
        &self.history
    }

    /// The history alone.
    pub fn into_history(self) -> History
        ensures place { result.place ≡ self.place }
        ensures entries { result.entries ≡ self.entries }
    {
        self.history
    }
}
