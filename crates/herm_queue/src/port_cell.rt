//! Ports: their messages, with clock and history.
ghost use Rattle.std.specs.Prelude.{◌≡◌, ◌++◌, ◌∷◌, [], ◌<◌, ◌≤◌, ◌^◌, ◌↔◌, false, true, cond, IfOk, IfSome, IfNone, OnOk, Some, None, option_map, length, map};
ghost use Rattle.herm_journal.specs.Actions.{put, take, close};
ghost use Rattle.herm_journal.specs.Ports.{empty_port, port_with};
ghost use Rattle.herm_journal.specs.Weights.{weigh_all};
ghost use Rattle.herm_system.specs.Summary.{cut};
ghost use Rattle.herm_events.specs.View.{place_view};
ghost use Rattle.herm_values.specs.View.{value_view};
ghost use Rattle.herm_values.specs.Whole.{IsWhole};
ghost use Rattle.herm_letters.specs.Letters.{IsParcel};
ghost use Rattle.herm_queue.specs.CellStates.{value_text, IsActed};
ghost use Rattle.herm_queue.specs.MessageStates.{queue_of, values_of};
ghost use Rattle.herm_queue.specs.PortStates.{port_cell, IsPort, number_of, stamp_of, text_in, IsBack};

use crate::left::cells_of_parcels;
use crate::log::Log;
use crate::messages::Messages;
use herm_base::{PortNo, ProcNo};
use herm_events::{Action, History, Place, Stamp, Trace, Traces};
use herm_letters::{Letter, Parcel, Parcels};
use herm_values::Value;
use std::alloc::{AllocError, Global};
use std::marker::Model;

/// A port: whether it is open, its messages with how many were placed there, the process that waits, its clock and its
/// history. What it holds is always what its history tells, from its opening state on.
#[derive(Drop)]
pub struct PortCell {
    port: PortNo,
    /// The text of the message with which it opens, if it opens with one.
    first: Option<Trace>,
    is_open: bool,
    placed: u64,
    messages: Messages,
    waiter: Option<ProcNo>,
    log: Log,
    spare: usize,
}

impl Model for PortCell {
    ghost use Rattle.std.specs.Coded.{codes};
    ghost use Rattle.herm_values.specs.contracts.value.Value as held;
    ghost use Rattle.herm_queue.specs.PortStates.{PortState};
    ghost use Rattle.herm_queue.specs.PortParts.{port_state, ArePort};

    ghost Value = { PortState };

    ghost coded = { Prim.hlevel (codes, held.the_row.coded) };

    ghost view = { λ c. port_state c.port c.first c.is_open c.placed c.messages c.waiter c.log c.spare };

    ghost invariant = { λ c. ArePort c.port c.first c.is_open c.placed c.messages c.waiter c.log c.spare };
}

/// What a put answers.
#[derive(Drop)]
pub enum Put {
    /// The message was placed under this number, from 0 on. With it comes its text.
    Placed {
        stamp: Stamp,
        number: u64,
        trace: Trace,
    },
    /// The port was closed. The message comes back, with its text.
    Closed {
        stamp: Stamp,
        value: Value,
        trace: Trace,
    },
}

/// What is left at a port: whether it is open, the texts of its messages in queue order, and how many cells these have, cut at 2^63.
#[derive(Drop)]
pub struct Left {
    pub port: PortNo,
    pub is_open: bool,
    pub texts: Traces,
    pub cells: u64,
}

impl PortCell {
    /// The port with this number, open and empty. It takes no memory.
    pub fn new(alloc: Global, port: PortNo) -> PortCell
        ensures number { result.number ≡ port.number }
        ensures first { result.first ≡ None }
        ensures held { result.held ≡ empty_port }
        ensures waiter { result.waiter ≡ None }
        ensures clock { result.clock ≡ 0 }
        ensures entries { result.entries ≡ [] }
    {
        PortCell {
            port,
            first: None,
            is_open: true,
            placed: 0,
            messages: Messages::new(alloc),
            waiter: None,
            log: Log::new(alloc, Place::Port(port)),
            spare: 0,
        }
    }

    /// Port 1, open, with the letter's value as message number 0. Its history is empty.
    pub fn first(alloc: Global, letter: Letter) -> Result<PortCell, AllocError>
        ensures number { IfOk result (λ c. c.number ≡ 1) }
        ensures first { IfOk result (λ c. c.first ≡ Some (value_text letter)) }
        ensures held { IfOk result (λ c. c.held ≡ port_with letter) }
        ensures waiter { IfOk result (λ c. c.waiter ≡ None) }
        ensures clock { IfOk result (λ c. c.clock ≡ 0) }
        ensures entries { IfOk result (λ c. c.entries ≡ []) }
    {
        let mut messages = Messages::new(alloc);
        messages.reserve()?;
        let (value, _, first, trace, taken) = letter.into_parts();
        messages.put(
            Parcel {
                number: 0,
                value,
                trace,
            },
            taken,
        );
        Ok(PortCell {
            port: MAIN_PORT,
            first: Some(first),
            is_open: true,
            placed: 1,
            messages,
            waiter: None,
            log: Log::new(alloc, Place::Port(MAIN_PORT)),
            spare: 0,
        })
    }

    /// Takes the memory of one action, where it has not been taken.
    pub fn reserve(&mut self) -> Result<(), AllocError>
        ensures same { self.new ≡ record self.old { spare = self.new.spare } }
        ensures ok { OnOk result (1 ≤ self.new.spare) }
        ensures spare { self.old.spare ≤ self.new.spare }
    {
        if self.spare == 0 {
            self.log.reserve()?;
            if self.is_open {
                self.messages.reserve()?;
            }
            self.spare = 1;
        }
        Ok(())
    }

    /// Puts a message on the port: it gets the next number, or comes back exactly where the port is closed.
    pub fn put(&mut self, who: ProcNo, clock: Stamp, letter: Letter) -> Put
        requires spare { 1 ≤ self.old.spare }
        requires process_clock { clock.0 < 2 ^ 63 }
        requires port_clock { self.old.clock < 2 ^ 63 }
        ensures acted { IsActed who.number clock.0 (put (number_of result) letter) (port_cell self.old) (port_cell self.new) }
        ensures stamp { stamp_of result ≡ self.new.clock }
        ensures closed { (number_of result ≡ None) ↔ (self.old.held.is_open ≡ false) }
        ensures text { text_in result ≡ value_text letter }
        ensures back { IsBack letter result }
        ensures waiter { self.new.waiter ≡ self.old.waiter }
    {
        let (value, diary, put, trace, taken) = letter.into_parts();
        if !self.is_open {
            let action = Action::Put {
                number: None,
                trace: put,
            };
            let stamp = self
                .log
                .record_action(Place::Port(self.port), who, clock, action);
            self.spare -= 1;
            return Put::Closed {
                stamp,
                value,
                trace: diary,
            };
        }
        let number = self.placed;
        self.messages.put(
            Parcel {
                number,
                value,
                trace,
            },
            taken,
        );
        self.placed += 1;
        let action = Action::Put {
            number: Some(number),
            trace: put,
        };
        let stamp = self
            .log
            .record_action(Place::Port(self.port), who, clock, action);
        self.spare -= 1;
        Put::Placed {
            stamp,
            number,
            trace: diary,
        }
    }

    /// Takes the oldest message, if there is one, with its number and its text. Where there is none nothing changes.
    pub fn take(&mut self, who: ProcNo, clock: Stamp) -> Option<(Stamp, Parcel)>
        requires spare { 1 ≤ self.old.spare }
        requires process_clock { clock.0 < 2 ^ 63 }
        requires port_clock { self.old.clock < 2 ^ 63 }
        ensures acted { IfSome result (λ r. IsActed who.number clock.0 (take r.1.number r.1.value) (port_cell self.old) (port_cell self.new)) }
        ensures stamp { IfSome result (λ r. r.0.0 ≡ self.new.clock) }
        ensures parcel { IfSome result (λ r. IsParcel r.1) }
        ensures empty { (result ≡ None) ↔ (self.old.held.queue ≡ []) }
        ensures unchanged { IfNone result (self.new ≡ self.old) }
        ensures waiter { self.new.waiter ≡ self.old.waiter }
    {
        match self.messages.take() {
            Some((parcel, text)) => {
                let action = Action::Take {
                    number: parcel.number,
                    trace: text,
                };
                let stamp = self
                    .log
                    .record_action(Place::Port(self.port), who, clock, action);
                self.spare -= 1;
                Some((stamp, parcel))
            }
            None => None,
        }
    }

    /// Closes the port and hands over its messages, oldest first: none where it was closed. Nobody waits afterwards.
    pub fn close(&mut self, who: ProcNo, clock: Stamp) -> (Stamp, Parcels)
        requires spare { 1 ≤ self.old.spare }
        requires process_clock { clock.0 < 2 ^ 63 }
        requires port_clock { self.old.clock < 2 ^ 63 }
        ensures acted { IsActed who.number clock.0 (close (length result.1.parcels) (values_of result.1.parcels)) (port_cell self.old) (port_cell self.new) }
        ensures stamp { result.0.0 ≡ self.new.clock }
        ensures parcels { queue_of result.1.parcels ≡ self.old.held.queue }
        ensures closed { self.old.held.is_open ≡ false → result.1.parcels ≡ [] }
        ensures waiter { self.new.waiter ≡ None }
    {
        let count = self.messages.len() as u64;
        let (parcels, left) = self.messages.hand_over();
        self.is_open = false;
        self.waiter = None;
        let action = Action::Close { count, left };
        let stamp = self
            .log
            .record_action(Place::Port(self.port), who, clock, action);
        self.spare -= 1;
        (stamp, parcels)
    }

    /// Notes that a process waits for a message, in place of one that waited before. On a closed port nothing changes.
    pub fn wait_here(&mut self, who: ProcNo)
        requires spare { 1 ≤ self.old.spare }
        ensures waiter { self.new ≡ record self.old { waiter = cond self.old.held.is_open (Some who.number) self.old.waiter } }
    {
        if self.is_open {
            self.waiter = Some(who);
        }
    }

    /// The process that waits, which then waits no more.
    pub fn take_waiter(&mut self) -> Option<ProcNo>
        ensures waiter { option_map (λ p. p.number) result ≡ self.old.waiter }
        ensures nobody { self.new ≡ record self.old { waiter = None } }
        ensures closed { self.old.held.is_open ≡ false → result ≡ None }
    {
        self.waiter.take()
    }

    /// Its place.
    pub fn place(&self) -> Place
        ensures place { place_view result ≡ (port_cell self.now).place }
        ensures kept { IsPort self.now }
    {
        Place::Port(self.port)
    }

    /// Its clock: the stamp of the last action there, or 0.
    pub fn clock(&self) -> Stamp
        ensures clock { result.0 ≡ self.now.clock }
        ensures kept { IsPort self.now }
    {
        self.log.clock()
    }

    /// Its history, which tells what it holds.
    pub fn history(&self) -> &History
        ensures place { result.now.place ≡ (port_cell self.now).place }
        ensures entries { result.now.entries ≡ self.now.entries }
        ensures kept { IsPort self.now }
    {
        self.log.history()
    }

    /// Whether it is open.
    pub fn is_open(&self) -> bool
        ensures is_open { result ≡ self.now.held.is_open }
    {
        self.is_open
    }

    /// What is left there. It takes no memory.
    pub fn into_left(self) -> Left
        ensures number { result.port.number ≡ self.number }
        ensures is_open { result.is_open ≡ self.held.is_open }
        ensures texts { result.texts ≡ map (λ m. value_text m.1) self.held.queue }
        ensures cells { result.cells ≡ cut (weigh_all (λ n. 1) (map (λ m. value_view m.1) self.held.queue)) }
    {
        let mut messages = self.messages;
        let (parcels, texts) = messages.hand_over();
        Left {
            port: self.port,
            is_open: self.is_open,
            texts,
            cells: cells_of_parcels(parcels),
        }
    }

    /// Its history alone.
    pub fn into_history(self) -> History
        ensures place { result.place ≡ (port_cell self).place }
        ensures entries { result.entries ≡ self.entries }
        ensures kept { IsPort self }
    {
        self.log.into_history()
    }
}

/// The port of the main process.
const MAIN_PORT: PortNo = PortNo { number: 1 };
