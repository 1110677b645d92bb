//! A port with the count of its messages.
ghost use Rattle.std.specs.Prelude.{◌≡◌, ◌<◌, ◌≤◌, ◌^◌, ◌↔◌, [], false, true, cond, IfOk, IfSome, IfNone, OnOk, Some, None, is_some, option_map, length, map, IsErr};
ghost use Rattle.herm_journal.specs.Actions.{put, take, close};
ghost use Rattle.herm_journal.specs.Ports.{empty_port, port_with};
ghost use Rattle.herm_journal.specs.Weights.{weigh_all};
ghost use Rattle.herm_system.specs.Summary.{cut};
ghost use Rattle.herm_values.specs.View.{value_view};
ghost use Rattle.herm_letters.specs.Letters.{IsParcel};
ghost use Rattle.herm_queue.specs.CellStates.{value_text, IsActed};
ghost use Rattle.herm_queue.specs.MessageStates.{queue_of, values_of};
ghost use Rattle.herm_world.specs.Counted.{PortActs, woken_at_put};
ghost use Rattle.herm_queue.specs.PortStates.{port_cell, number_of, stamp_of, text_in, IsBack};

use herm_base::{PortNo, ProcNo};
use herm_events::Stamp;
use herm_letters::{Letter, Parcel, Parcels};
use herm_queue::{Left, PortCell, Put};
use std::alloc::{AllocError, Global};
use std::marker::Model;

/// A port cell, and how many messages wait there.
#[derive(Drop)]
pub struct CountedPort {
    cell: PortCell,
    queued: u64,
}

impl Model for CountedPort {
    ghost use Rattle.std.specs.Coded.{codes};
    ghost use Rattle.herm_values.specs.contracts.value.Value as held;
    ghost use Rattle.herm_queue.specs.PortStates.{PortState};
    ghost use Rattle.herm_world.specs.Counted.{IsCountedPort};

    ghost Value = { PortState };

    ghost coded = { Prim.hlevel (codes, held.the_row.coded) };

    ghost view = { λ p. p.cell };

    ghost invariant = { λ p. IsCountedPort p.cell p.queued };
}

impl CountedPort {
    /// The port with this number, open and empty. It takes no memory.
    pub fn new(alloc: Global, port: PortNo) -> CountedPort
        ensures number { result.number ≡ port.number }
        ensures held { result.held ≡ empty_port }
        ensures waiter { result.waiter ≡ None }
        ensures clock { result.clock ≡ 0 }
        ensures entries { result.entries ≡ [] }
    {
        CountedPort {
            cell: PortCell::new(alloc, port),
            queued: 0,
        }
    }

    /// Port 1, open, with the letter's value as message number 0.
    pub fn first(alloc: Global, letter: Letter) -> Result<CountedPort, AllocError>
        ensures number { IfOk result (λ c. c.number ≡ 1) }
        ensures held { IfOk result (λ c. c.held ≡ port_with letter) }
        ensures waiter { IfOk result (λ c. c.waiter ≡ None) }
        ensures clock { IfOk result (λ c. c.clock ≡ 0) }
        ensures entries { IfOk result (λ c. c.entries ≡ []) }
    {
        let cell = PortCell::first(alloc, letter)?;
        Ok(CountedPort { cell, queued: 1 })
    }

    /// Whether no message waits there.
    pub fn is_empty(&self) -> bool
        ensures empty { (result ≡ true) ↔ (self.now.held.queue ≡ []) }
    {
        self.queued == 0
    }

    /// Takes the memory of one action.
    fn reserve(&mut self) -> Result<(), AllocError>
        ensures same { self.new ≡ record self.old { spare = self.new.spare } }
        ensures ok { OnOk result (1 ≤ self.new.spare) }
    {
        self.cell.reserve()?;
        Ok(())
    }

    /// Puts a message there, where memory is taken: it gets the next number, or comes back exactly where the port is closed.
    fn place(&mut self, who: ProcNo, clock: Stamp, letter: Letter) -> Put
        requires spare { 1 ≤ self.old.spare }
        requires process_clock { clock.0 < 2 ^ 63 }
        requires port_clock { self.old.clock < 2 ^ 63 }
        ensures acted { IsActed who.number clock.0 (put (number_of result) letter) (port_cell self.old) (port_cell self.new) }
        ensures stamp { stamp_of result ≡ self.new.clock }
        ensures text { text_in result ≡ value_text letter }
        ensures back { IsBack letter result }
        ensures waiter { self.new.waiter ≡ self.old.waiter }
    {
        match self.cell.put(who, clock, letter) {
            Put::Placed {
                stamp,
                number,
                trace,
            } => {
                self.queued += 1;
                return Put::Placed {
                    stamp,
                    number,
                    trace,
                };
            }
            Put::Closed {
                stamp,
                value,
                trace,
            } => {
                return Put::Closed {
                    stamp,
                    value,
                    trace,
                };
            }
        }
    }

    /// Puts a message there. Where it was placed, who was noted as waiting is woken, and noted no more.
    pub fn put(
        &mut self,
        who: ProcNo,
        clock: Stamp,
        letter: Letter,
    ) -> Result<(Put, Option<ProcNo>), AllocError>
        requires process_clock { clock.0 < 2 ^ 63 }
        requires port_clock { self.old.clock < 2 ^ 63 }
        ensures acted { IfOk result (λ r. PortActs who.number clock.0 (put (number_of r.0) letter) (woken_at_put (number_of r.0)) self.old self.new) }
        ensures woken { IfOk result (λ r. option_map (λ p. p.number) r.1 ≡ cond (is_some (number_of r.0)) self.old.waiter None) }
        ensures stamp { IfOk result (λ r. stamp_of r.0 ≡ self.new.clock) }
        ensures text { IfOk result (λ r. text_in r.0 ≡ value_text letter) }
        ensures back { IfOk result (λ r. IsBack letter r.0) }
    {
        self.reserve()?;
        match self.place(who, clock, letter) {
            Put::Placed {
                stamp,
                number,
                trace,
            } => {
                let woken = self.cell.take_waiter();
                return Ok((
                    Put::Placed {
                        stamp,
                        number,
                        trace,
                    },
                    woken,
                ));
            }
            Put::Closed {
                stamp,
                value,
                trace,
            } => {
                return Ok((
                    Put::Closed {
                        stamp,
                        value,
                        trace,
                    },
                    None,
                ));
            }
        }
    }

    /// Takes the oldest message, if there is one, with its number and its text.
    pub fn take(&mut self, who: ProcNo, clock: Stamp) -> Result<Option<(Stamp, Parcel)>, AllocError>
        requires process_clock { clock.0 < 2 ^ 63 }
        requires port_clock { self.old.clock < 2 ^ 63 }
        ensures acted { IfOk result (λ r. IfSome r (λ r. PortActs who.number clock.0 (take r.1.number r.1.value) (λ w. w) self.old self.new)) }
        ensures stamp { IfOk result (λ r. IfSome r (λ r. r.0.0 ≡ self.new.clock)) }
        ensures parcel { IfOk result (λ r. IfSome r (λ r. IsParcel r.1)) }
        ensures empty { IfOk result (λ r. r ≡ None → self.old.held.queue ≡ []) }
        ensures unchanged { IfOk result (λ r. r ≡ None → self.new ≡ record self.old { spare = self.new.spare }) }
        ensures failed { IsErr result → self.new ≡ record self.old { spare = self.new.spare } }
    {
        self.reserve()?;
        match self.cell.take(who, clock) {
            Some((stamp, parcel)) => {
                self.queued -= 1;
                return Ok(Some((stamp, parcel)));
            }
            None => return Ok(None),
        }
    }

    /// Closes the port and hands over its messages, oldest first: none where it was closed. Nobody waits afterwards.
    pub fn close(&mut self, who: ProcNo, clock: Stamp) -> Result<(Stamp, Parcels), AllocError>
        requires process_clock { clock.0 < 2 ^ 63 }
        requires port_clock { self.old.clock < 2 ^ 63 }
        ensures acted { IfOk result (λ r. PortActs who.number clock.0 (close (length r.1.parcels) (values_of r.1.parcels)) (λ w. None) self.old self.new) }
        ensures stamp { IfOk result (λ r. r.0.0 ≡ self.new.clock) }
        ensures parcels { IfOk result (λ r. queue_of r.1.parcels ≡ self.old.held.queue) }
    {
        self.reserve()?;
        self.queued = 0;
        let (stamp, parcels) = self.cell.close(who, clock);
        Ok((stamp, parcels))
    }

    /// Notes that a process waits for a message, in place of one that waited before. On a closed port nothing changes.
    pub fn wait_here(&mut self, who: ProcNo) -> Result<(), AllocError>
        ensures waiter { OnOk result (self.new ≡ record self.old { waiter = cond self.old.held.is_open (Some who.number) self.old.waiter; spare = self.new.spare }) }
    {
        self.reserve()?;
        self.cell.wait_here(who);
        Ok(())
    }

    /// What is left there. It takes no memory.
    pub fn into_left(self) -> Left
        ensures number { result.port.number ≡ self.number }
        ensures is_open { result.is_open ≡ self.held.is_open }
        ensures texts { result.texts ≡ map (λ m. value_text m.1) self.held.queue }
        ensures cells { result.cells ≡ cut (weigh_all (λ n. 1) (map (λ m. value_view m.1) self.held.queue)) }
    {
        self.cell.into_left()
    }
}
