//! The book: how many ports and processes were made.
ghost use Rattle.std.specs.Prelude.{◌≡◌, ◌<◌, ◌≤◌, ◌^◌, [], OnOk, option_map};
ghost use Rattle.herm_journal.specs.Actions.{make_port, make_process};
ghost use Rattle.herm_journal.specs.NextNumbers.{first_book};
ghost use Rattle.herm_journal.specs.NextNumbers;
ghost use Rattle.herm_events.specs.View.{place_view};
ghost use Rattle.herm_queue.specs.CellStates.{IsActed};
ghost use Rattle.herm_queue.specs.BookStates.{book_cell, IsBook, limits_view, counts_of};

use crate::log::Log;
use herm_base::{Limits, PortNo, ProcNo};
use herm_events::{Action, History, Place, Stamp};
use std::alloc::{AllocError, Global};
use std::marker::Model;

/// The numbers of the ports and processes made, with their limits, a clock and a history. What it holds is always what
/// its history tells, from port 1 and process 1 on.
#[derive(Drop)]
pub struct Book {
    limits: Limits,
    ports: u32,
    processes: u32,
    log: Log,
    spare: usize,
}

impl Model for Book {
    ghost use Rattle.herm_queue.specs.BookStates.{BookState, book_state, AreBook};

    ghost Value = { BookState };

    ghost view = { λ b. book_state b.limits b.ports b.processes b.log b.spare };

    ghost invariant = { λ b. AreBook b.limits b.ports b.processes b.log b.spare };
}

/// The number of the next port, behind so many.
fn next_port(limits: &Limits, ports: u32) -> Option<PortNo>
    ensures next { option_map (λ p. p.number) result ≡ NextNumbers.next_port (counts_of limits.now ports 0) }
{
    if (ports as u64) < limits.ports() {
        return Some(PortNo { number: ports + 1 });
    }
    None
}

/// The numbers of the next process and its port, behind so many.
fn next_process(limits: &Limits, ports: u32, processes: u32) -> Option<(ProcNo, PortNo)>
    ensures next { option_map (λ m. (m.0.number, m.1.number)) result ≡ NextNumbers.next_process (counts_of limits.now ports processes) }
{
    if (processes as u64) < limits.processes() && (ports as u64) < limits.ports() {
        return Some((
            ProcNo {
                number: processes + 1,
            },
            PortNo { number: ports + 1 },
        ));
    }
    None
}

impl Book {
    /// The book of a run with these limits, with port 1 and process 1. It takes no memory.
    pub fn new(alloc: Global, limits: &Limits) -> Book
        ensures held { result.held ≡ first_book (limits_view limits.now) }
        ensures clock { result.clock ≡ 0 }
        ensures entries { result.entries ≡ [] }
    {
        Book {
            limits: *limits,
            ports: 1,
            processes: 1,
            log: Log::new(alloc, Place::Book),
            spare: 0,
        }
    }

    /// Takes the memory of one action, where it has not been taken.
    pub fn reserve(&mut self) -> Result<(), AllocError>
        ensures same { self.new ≡ record self.old { spare = self.new.spare } }
        ensures ok { OnOk result (1 ≤ self.new.spare) }
        ensures spare { self.old.spare ≤ self.new.spare }
    {
        if self.spare == 0 {
            self.log.reserve()?;
            self.spare = 1;
        }
        Ok(())
    }

    /// Makes a port, with the next number: none exactly where the ports besides port 0 are as many as their limit.
    pub fn make_port(&mut self, who: ProcNo, clock: Stamp) -> (Stamp, Option<PortNo>)
        requires spare { 1 ≤ self.old.spare }
        requires process_clock { clock.0 < 2 ^ 63 }
        requires book_clock { self.old.clock < 2 ^ 63 }
        ensures acted { IsActed who.number clock.0 (make_port (option_map (λ p. p.number) result.1)) (book_cell self.old) (book_cell self.new) }
        ensures stamp { result.0.0 ≡ self.new.clock }
    {
        let made = next_port(&self.limits, self.ports);
        match made {
            Some(port) => {
                self.ports = port.get();
                let stamp = self
                    .log
                    .record_action(Place::Book, who, clock, Action::MakePort { made });
                self.spare -= 1;
                return (stamp, made);
            }
            None => {
                let stamp = self
                    .log
                    .record_action(Place::Book, who, clock, Action::MakePort { made });
                self.spare -= 1;
                return (stamp, made);
            }
        }
    }

    /// Makes a process of this module with its port, with the next numbers: none exactly where the processes besides
    /// process 0, or the ports besides port 0, are as many as their limit.
    pub fn make_process(
        &mut self,
        who: ProcNo,
        clock: Stamp,
        module: u32,
    ) -> (Stamp, Option<(ProcNo, PortNo)>)
        requires spare { 1 ≤ self.old.spare }
        requires process_clock { clock.0 < 2 ^ 63 }
        requires book_clock { self.old.clock < 2 ^ 63 }
        ensures acted { IsActed who.number clock.0 (make_process «module» (option_map (λ m. (m.0.number, m.1.number)) result.1)) (book_cell self.old) (book_cell self.new) }
        ensures stamp { result.0.0 ≡ self.new.clock }
    {
        let made = next_process(&self.limits, self.ports, self.processes);
        match made {
            Some((process, port)) => {
                self.processes = process.get();
                self.ports = port.get();
                let stamp = self.log.record_action(
                    Place::Book,
                    who,
                    clock,
                    Action::MakeProcess { module, made },
                );
                self.spare -= 1;
                return (stamp, made);
            }
            None => {
                let stamp = self.log.record_action(
                    Place::Book,
                    who,
                    clock,
                    Action::MakeProcess { module, made },
                );
                self.spare -= 1;
                return (stamp, made);
            }
        }
    }

    /// Its place.
    pub fn place(&self) -> Place
        ensures place { place_view result ≡ (book_cell self.now).place }
        ensures kept { IsBook self.now }
    {
        let _ = &self.log;
        Place::Book
    }

    /// Its clock: the stamp of the last action there, or 0.
    pub fn clock(&self) -> Stamp
        ensures clock { result.0 ≡ self.now.clock }
        ensures kept { IsBook self.now }
    {
        self.log.clock()
    }

    /// Its history, which tells what it holds.
    pub fn history(&self) -> &History
        ensures place { result.now.place ≡ (book_cell self.now).place }
        ensures entries { result.now.entries ≡ self.now.entries }
        ensures kept { IsBook self.now }
    {
        self.log.history()
    }

    /// Its history alone.
    pub fn into_history(self) -> History
        ensures place { result.place ≡ (book_cell self).place }
        ensures entries { result.entries ≡ self.entries }
        ensures kept { IsBook self }
    {
        self.log.into_history()
    }
}
