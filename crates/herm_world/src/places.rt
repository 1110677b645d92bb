//! The places of a world, and what is done there.
ghost use Rattle.std.specs.Prelude.{◌≡◌, ◌<◌, ◌≤◌, ◌^◌, ◌↔◌, ℕ, List, [], ◌∷◌, None, Some, IfOk, All, length, option_map, true};
ghost use Rattle.herm_journal.specs.Actions.{new_port, new_process, to_put, to_take, to_close, to_answer, to_hear};
ghost use Rattle.herm_journal.specs.Entries.{port as at_port};
ghost use Rattle.herm_code_machine.specs.CodeStates.{CodeState};
ghost use Rattle.std.specs.Prelude.{⊤};
ghost use Rattle.herm_values.specs.View.{value_view};
ghost use Rattle.herm_letters.specs.Letters.{IsParcel, IsWholeReply};
ghost use Rattle.herm_letters.specs.View.{reply_view};
ghost use Rattle.herm_events.specs.View.{reply_trace_view};
ghost use Rattle.herm_queue.specs.CellStates.{reply_text};
ghost use Rattle.herm_world.specs.Acting.{first_place_for};
ghost use Rattle.herm_world.specs.Doing.{Does, numbers_in};
ghost use Rattle.herm_world.specs.Places.{places_of, seen_of, ClocksFit, AreNumbered, AreOwned, has_port, has_replies, is_answered, is_filled};
ghost use Rattle.herm_model.specs.Lists.{list_of};
ghost use Rattle.herm_machine.specs.declared.order.Got.TheVariants.{Process};

use crate::counted_port::CountedPort;
use crate::counted_replies::CountedReplies;
use herm_base::{PortNo, ProcNo};
use herm_events::{ReplyTrace, Stamp};
use herm_letters::{Letter, Parcels, Reply};
use herm_machine::Got;
use herm_queue::{Book, Put};
use std::alloc::AllocError;

/// Ports from port 0 on, reply cells from process 1 on, and the book.
#[derive(Drop)]
pub struct Places {
    pub ports: Vec<CountedPort>,
    pub replies: Vec<CountedReplies>,
    pub book: Book,
}

/// The messages that a port hands over, each of which is whole, with its text beside it.
fn all_whole(left: Parcels) -> Parcels
    ensures same { result ≡ left }
    ensures whole { All IsParcel result.parcels }
{
    left
}

impl Places {
    /// Whether there is a port of this number.
    pub fn has_port(&self, port: PortNo) -> bool
        ensures there { result ≡ has_port (places_of self.now) port.number }
    {
        (port.number as usize) < self.ports.len()
    }

    /// Whether there is a reply cell of this process.
    pub fn has_replies(&self, who: ProcNo) -> bool
        ensures there { result ≡ has_replies (places_of self.now) who.number }
    {
        let n = who.number as usize;
        n >= 1 && n <= self.replies.len()
    }

    /// Whether there is a port of this number at which a message waits.
    pub fn is_filled(&self, port: PortNo) -> bool
        ensures filled { result ≡ is_filled (places_of self.now) port.number }
    {
        let n = port.number as usize;
        n < self.ports.len() && !self.ports[n].is_empty()
    }

    /// Puts a message on a port. Who was noted there is woken.
    pub fn put(
        &mut self,
        who: ProcNo,
        clock: Stamp,
        port: PortNo,
        letter: Letter,
    ) -> Result<(Got, Stamp, Option<ProcNo>), AllocError>
        requires there { port.number < length self.old.ports.items }
        requires clock { clock.0 < 2 ^ 63 }
        requires clocks { ClocksFit (places_of self.old) }
        ensures does { IfOk result (λ r. Does who.number clock.0 (to_put port.number (value_view letter)) (places_of self.old) (places_of self.new) r.0 r.1.0 (numbers_in r.2)) }
    {
        let (answer, woken) = self.ports[port.number as usize].put(who, clock, letter)?;
        match answer {
            Put::Placed {
                stamp,
                number,
                trace,
            } => return Ok((Got::Placed { number, trace }, stamp, woken)),
            Put::Closed {
                stamp,
                value,
                trace,
            } => return Ok((Got::Back { value, trace }, stamp, woken)),
        }
    }

    /// Takes the oldest message of a port at which one waits, which is the first of those that the process looks at.
    pub fn take(
        &mut self,
        who: ProcNo,
        clock: Stamp,
        port: PortNo,
    ) -> Result<(Got, Stamp), AllocError>
        requires filled { is_filled (places_of self.old) port.number ≡ true }
        requires clock { clock.0 < 2 ^ 63 }
        requires clocks { ClocksFit (places_of self.old) }
        ensures does { IfOk result (λ r. (ports : List ℕ) → ((qs : List (CodeState ⊤)) → first_place_for (seen_of qs (places_of self.old)) who.number (to_take ports) ≡ Some (at_port port.number)) → Does who.number clock.0 (to_take ports) (places_of self.old) (places_of self.new) r.0 r.1.0 []) }
    {
        let taken = self.ports[port.number as usize].take(who, clock)?;
        match taken {
            Some((stamp, parcel)) => return Ok((Got::Message { port, parcel }, stamp)),
            None => unreachable!(),
        }
    }

    /// Closes a port.
    pub fn close(
        &mut self,
        who: ProcNo,
        clock: Stamp,
        port: PortNo,
    ) -> Result<(Got, Stamp), AllocError>
        requires there { port.number < length self.old.ports.items }
        requires clock { clock.0 < 2 ^ 63 }
        requires clocks { ClocksFit (places_of self.old) }
        ensures does { IfOk result (λ r. Does who.number clock.0 (to_close port.number) (places_of self.old) (places_of self.new) r.0 r.1.0 []) }
    {
        let (stamp, left) = self.ports[port.number as usize].close(who, clock)?;
        let left = all_whole(left);
        Ok((Got::Left(left), stamp))
    }

    /// Answers a call, whose caller is there. The caller is woken.
    pub fn answer(
        &mut self,
        who: ProcNo,
        clock: Stamp,
        caller: ProcNo,
        call: u64,
        reply: Reply,
        traces: (ReplyTrace, ReplyTrace),
    ) -> Result<(Got, Stamp), AllocError>
        requires from_one { 1 ≤ caller.number }
        requires there { caller.number ≤ length self.old.replies.items }
        requires clock { clock.0 < 2 ^ 63 }
        requires clocks { ClocksFit (places_of self.old) }
        requires whole { IsWholeReply reply }
        requires recorded { reply_trace_view traces.0 ≡ reply_text reply }
        requires heard { reply_trace_view traces.1 ≡ reply_text reply }
        ensures does { IfOk result (λ r. Does who.number clock.0 (to_answer caller.number call (reply_view reply)) (places_of self.old) (places_of self.new) r.0 r.1.0 (caller.number ∷ [])) }
    {
        let stamp = self.replies[caller.number as usize - 1].answer(
            who, clock, call, reply, traces,
        )?;
        Ok((Got::Answered, stamp))
    }

    /// Whether there is a reply cell of this process in which a reply waits.
    pub fn is_answered(&self, who: ProcNo) -> bool
        ensures answered { result ≡ is_answered (places_of self.now) who.number }
    {
        let n = who.number as usize;
        n >= 1 && n <= self.replies.len() && !self.replies[n - 1].is_empty()
    }

    /// The process hears the oldest reply in its cell, where one waits.
    pub fn hear(&mut self, who: ProcNo, clock: Stamp) -> Result<(Got, Stamp), AllocError>
        requires answered { is_answered (places_of self.old) who.number ≡ true }
        requires clock { clock.0 < 2 ^ 63 }
        requires clocks { ClocksFit (places_of self.old) }
        requires owned { AreOwned (places_of self.old) }
        ensures does { IfOk result (λ r. Does who.number clock.0 to_hear (places_of self.old) (places_of self.new) r.0 r.1.0 []) }
    {
        let heard = self.replies[who.number as usize - 1].hear(clock)?;
        match heard {
            Some((stamp, call, reply, trace)) => {
                return Ok((Got::Heard { call, reply, trace }, stamp));
            }
            None => unreachable!(),
        }
    }

    /// Makes a port, if there may be one more.
    pub fn make_port(&mut self, who: ProcNo, clock: Stamp) -> Result<(Got, Stamp), AllocError>
        requires clock { clock.0 < 2 ^ 63 }
        requires clocks { ClocksFit (places_of self.old) }
        requires numbered { AreNumbered (places_of self.old) }
        ensures does { IfOk result (λ r. Does who.number clock.0 new_port (places_of self.old) (places_of self.new) r.0 r.1.0 []) }
    {
        self.book.reserve()?;
        let (stamp, made) = self.book.make_port(who, clock);
        match made {
            Some(port) => {
                let alloc = *self.ports.allocator();
                self.ports.push(CountedPort::new(alloc, port))?;
                return Ok((Got::Port(Some(port)), stamp));
            }
            None => return Ok((Got::Port(None), stamp)),
        }
    }

    /// Makes a port and a reply cell for a process, if there may be one more. The process is woken.
    pub fn make_process(
        &mut self,
        who: ProcNo,
        clock: Stamp,
        module: u32,
    ) -> Result<(Got, Stamp, Option<(ProcNo, PortNo)>), AllocError>
        requires clock { clock.0 < 2 ^ 63 }
        requires clocks { ClocksFit (places_of self.old) }
        requires numbered { AreNumbered (places_of self.old) }
        ensures does { IfOk result (λ r. Does who.number clock.0 (new_process «module») (places_of self.old) (places_of self.new) r.0 r.1.0 (list_of (λ m. m.0.number ∷ []) r.2)) }
        ensures made { IfOk result (λ r. r.0 ≡ Process r.2) }
    {
        self.book.reserve()?;
        let (stamp, made) = self.book.make_process(who, clock, module);
        match made {
            Some((process, port)) => {
                let alloc = *self.ports.allocator();
                self.ports.push(CountedPort::new(alloc, port))?;
                self.replies.push(CountedReplies::new(alloc, process))?;
                return Ok((Got::Process(made), stamp, made));
            }
            None => return Ok((Got::Process(None), stamp, None)),
        }
    }
}
