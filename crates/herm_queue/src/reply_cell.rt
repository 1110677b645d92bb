//! Reply cells: the answers that a process is to hear, with clock and history.
ghost use Rattle.std.specs.Prelude.{◌≡◌, ◌<◌, ◌≤◌, ◌^◌, ◌↔◌, [], None, IfSome, IfNone, OnOk};
ghost use Rattle.herm_journal.specs.Actions.{answer, hear};
ghost use Rattle.herm_model.specs.Lists.{total};
ghost use Rattle.herm_journal.specs.Weights.{weigh_reply};
ghost use Rattle.herm_system.specs.Summary.{cut};
ghost use Rattle.herm_events.specs.View.{place_view, reply_trace_view};
ghost use Rattle.herm_letters.specs.Letters.{IsWholeReply};
ghost use Rattle.herm_letters.specs.View.{reply_view};
ghost use Rattle.herm_queue.specs.CellStates.{reply_text, IsActed};
ghost use Rattle.herm_queue.specs.ReplyStates.{reply_cell_of, IsReplyCell};

use crate::answers::{Answered, Answers};
use crate::log::Log;
use herm_base::ProcNo;
use herm_events::{Action, History, Place, ReplyTrace, Stamp};
use herm_letters::Reply;
use std::alloc::{AllocError, Global};
use std::marker::Model;

/// The cell in which a process hears the answers to its calls: replies that wait, a clock and a history. What it holds is
/// always what its history tells, from empty on.
#[derive(Drop)]
pub struct ReplyCell {
    owner: ProcNo,
    answers: Answers,
    log: Log,
    spare: usize,
}

impl Model for ReplyCell {
    ghost use Rattle.std.specs.Coded.{codes};
    ghost use Rattle.herm_letters.specs.contracts.reply.Reply as held;
    ghost use Rattle.herm_queue.specs.ReplyStates.{ReplyState, reply_state, AreReplyCell};

    ghost Value = { ReplyState };

    ghost coded = { Prim.hlevel (codes, held.the_row.coded) };

    ghost view = { λ c. reply_state c.owner c.answers c.log c.spare };

    ghost invariant = { λ c. AreReplyCell c.owner c.answers c.log c.spare };
}

impl ReplyCell {
    /// The empty reply cell of a process. It takes no memory.
    pub fn new(alloc: Global, owner: ProcNo) -> ReplyCell
        ensures owner { result.owner ≡ owner.number }
        ensures waiting { result.waiting ≡ [] }
        ensures clock { result.clock ≡ 0 }
        ensures entries { result.entries ≡ [] }
    {
        ReplyCell {
            owner,
            answers: Answers::new(alloc),
            log: Log::new(alloc, Place::Reply(owner)),
            spare: 0,
        }
    }

    /// Takes the memory of one action, where it has not been taken.
    pub fn reserve(&mut self) -> Result<(), AllocError>
        ensures same { self.new ≡ record self.old { spare = self.new.spare } }
        ensures ok { OnOk result (1 ≤ self.new.spare) }
        ensures spare { self.old.spare ≤ self.new.spare }
    {
        if self.spare == 0 {
            self.log.reserve()?;
            self.answers.reserve()?;
            self.spare = 1;
        }
        Ok(())
    }

    /// Answers a call with a reply, of which two texts are given.
    pub fn answer(
        &mut self,
        who: ProcNo,
        clock: Stamp,
        call: u64,
        reply: Reply,
        traces: (ReplyTrace, ReplyTrace),
    ) -> Stamp
        requires spare { 1 ≤ self.old.spare }
        requires process_clock { clock.0 < 2 ^ 63 }
        requires cell_clock { self.old.clock < 2 ^ 63 }
        requires whole { IsWholeReply reply }
        requires recorded { reply_trace_view traces.0 ≡ reply_text reply }
        requires heard { reply_trace_view traces.1 ≡ reply_text reply }
        ensures acted { IsActed who.number clock.0 (answer call reply) (reply_cell_of self.old) (reply_cell_of self.new) }
        ensures stamp { result.0 ≡ self.new.clock }
    {
        let (recorded, heard) = traces;
        self.answers.put(Answered {
            call,
            reply,
            trace: heard,
        });
        let action = Action::Answer {
            call,
            reply: recorded,
        };
        let stamp = self
            .log
            .record_action(Place::Reply(self.owner), who, clock, action);
        self.spare -= 1;
        stamp
    }

    /// The owner hears the oldest reply, if there is one, with the number of its call and its text. Where there is none
    /// nothing changes.
    pub fn hear(&mut self, clock: Stamp) -> Option<(Stamp, u64, Reply, ReplyTrace)>
        requires spare { 1 ≤ self.old.spare }
        requires process_clock { clock.0 < 2 ^ 63 }
        requires cell_clock { self.old.clock < 2 ^ 63 }
        ensures acted { IfSome result (λ r. IsActed self.old.owner clock.0 (hear r.1 r.2) (reply_cell_of self.old) (reply_cell_of self.new)) }
        ensures stamp { IfSome result (λ r. r.0.0 ≡ self.new.clock) }
        ensures whole { IfSome result (λ r. IsWholeReply r.2) }
        ensures text { IfSome result (λ r. reply_trace_view r.3 ≡ reply_text r.2) }
        ensures empty { (result ≡ None) ↔ (self.old.waiting ≡ []) }
        ensures unchanged { IfNone result (self.new ≡ self.old) }
    {
        match self.answers.take() {
            Some((answered, further)) => {
                let action = Action::Hear {
                    call: answered.call,
                    reply: further,
                };
                let stamp = self
                    .log
                    .record_action(Place::Reply(self.owner), self.owner, clock, action);
                self.spare -= 1;
                Some((stamp, answered.call, answered.reply, answered.trace))
            }
            None => None,
        }
    }

    /// Its place.
    pub fn place(&self) -> Place
        ensures place { place_view result ≡ (reply_cell_of self.now).place }
        ensures kept { IsReplyCell self.now }
    {
        Place::Reply(self.owner)
    }

    /// Its clock: the stamp of the last action there, or 0.
    pub fn clock(&self) -> Stamp
        ensures clock { result.0 ≡ self.now.clock }
        ensures kept { IsReplyCell self.now }
    {
        self.log.clock()
    }

    /// Its history, which tells what it holds.
    pub fn history(&self) -> &History
        ensures place { result.now.place ≡ (reply_cell_of self.now).place }
        ensures entries { result.now.entries ≡ self.now.entries }
        ensures kept { IsReplyCell self.now }
    {
        self.log.history()
    }

    /// Its history alone.
    pub fn into_history(self) -> History
        ensures place { result.place ≡ (reply_cell_of self).place }
        ensures entries { result.entries ≡ self.entries }
        ensures kept { IsReplyCell self }
    {
        self.log.into_history()
    }

    /// How many cells the replies have that wait there, cut at 2^63.
    pub fn cells(&self) -> u64
        ensures cells { result ≡ cut (total (λ r. weigh_reply (λ n. 1) (reply_view r.1)) self.now.waiting) }
    {
        self.answers.cells()
    }
}
