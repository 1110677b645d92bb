//! A reply cell with the count of its replies.
ghost use Rattle.std.specs.Prelude.{◌≡◌, ◌<◌, ◌≤◌, ◌^◌, ◌↔◌, [], true, None, IfSome, IfOk, OnOk, IsErr};
ghost use Rattle.herm_journal.specs.Actions.{answer, hear};
ghost use Rattle.herm_model.specs.Lists.{total};
ghost use Rattle.herm_journal.specs.Weights.{weigh_reply};
ghost use Rattle.herm_system.specs.Summary.{cut};
ghost use Rattle.herm_events.specs.View.{reply_trace_view};
ghost use Rattle.herm_letters.specs.Letters.{IsWholeReply};
ghost use Rattle.herm_letters.specs.View.{reply_view};
ghost use Rattle.herm_queue.specs.CellStates.{reply_text};
ghost use Rattle.herm_world.specs.Counted.{ReplyActs};

use herm_base::ProcNo;
use herm_events::{ReplyTrace, Stamp};
use herm_letters::Reply;
use herm_queue::ReplyCell;
use std::alloc::{AllocError, Global};
use std::marker::Model;

/// A reply cell, and how many replies wait there.
#[derive(Drop)]
pub struct CountedReplies {
    cell: ReplyCell,
    waiting: u64,
}

impl Model for CountedReplies {
    ghost use Rattle.std.specs.Coded.{codes};
    ghost use Rattle.herm_letters.specs.contracts.reply.Reply as held;
    ghost use Rattle.herm_queue.specs.ReplyStates.{ReplyState};
    ghost use Rattle.herm_world.specs.Counted.{IsCountedReply};

    ghost Value = { ReplyState };

    ghost coded = { Prim.hlevel (codes, held.the_row.coded) };

    ghost view = { λ p. p.cell };

    ghost invariant = { λ p. IsCountedReply p.cell p.waiting };
}

impl CountedReplies {
    /// The empty reply cell of a process. It takes no memory.
    pub fn new(alloc: Global, owner: ProcNo) -> CountedReplies
        ensures owner { result.owner ≡ owner.number }
        ensures waiting { result.waiting ≡ [] }
        ensures clock { result.clock ≡ 0 }
        ensures entries { result.entries ≡ [] }
    {
        CountedReplies {
            cell: ReplyCell::new(alloc, owner),
            waiting: 0,
        }
    }

    /// Whether no reply waits there.
    pub fn is_empty(&self) -> bool
        ensures empty { (result ≡ true) ↔ (self.now.waiting ≡ []) }
    {
        self.waiting == 0
    }

    /// Takes the memory of one action.
    fn reserve(&mut self) -> Result<(), AllocError>
        ensures same { self.new ≡ record self.old { spare = self.new.spare } }
        ensures ok { OnOk result (1 ≤ self.new.spare) }
    {
        self.cell.reserve()?;
        Ok(())
    }

    /// Answers a call with a reply, of which two texts are given.
    pub fn answer(
        &mut self,
        who: ProcNo,
        clock: Stamp,
        call: u64,
        reply: Reply,
        traces: (ReplyTrace, ReplyTrace),
    ) -> Result<Stamp, AllocError>
        requires process_clock { clock.0 < 2 ^ 63 }
        requires cell_clock { self.old.clock < 2 ^ 63 }
        requires whole { IsWholeReply reply }
        requires recorded { reply_trace_view traces.0 ≡ reply_text reply }
        requires heard { reply_trace_view traces.1 ≡ reply_text reply }
        ensures acted { OnOk result (ReplyActs who.number clock.0 (answer call reply) self.old self.new) }
        ensures stamp { IfOk result (λ r. r.0 ≡ self.new.clock) }
    {
        self.reserve()?;
        self.waiting += 1;
        let stamp = self.cell.answer(who, clock, call, reply, traces);
        Ok(stamp)
    }

    /// The owner hears the oldest reply, if there is one, with the number of its call and its text.
    pub fn hear(
        &mut self,
        clock: Stamp,
    ) -> Result<Option<(Stamp, u64, Reply, ReplyTrace)>, AllocError>
        requires process_clock { clock.0 < 2 ^ 63 }
        requires cell_clock { self.old.clock < 2 ^ 63 }
        ensures acted { IfOk result (λ r. IfSome r (λ r. ReplyActs self.old.owner clock.0 (hear r.1 r.2) self.old self.new)) }
        ensures stamp { IfOk result (λ r. IfSome r (λ r. r.0.0 ≡ self.new.clock)) }
        ensures whole { IfOk result (λ r. IfSome r (λ r. IsWholeReply r.2)) }
        ensures text { IfOk result (λ r. IfSome r (λ r. reply_trace_view r.3 ≡ reply_text r.2)) }
        ensures empty { IfOk result (λ r. r ≡ None → self.old.waiting ≡ []) }
        ensures unchanged { IfOk result (λ r. r ≡ None → self.new ≡ record self.old { spare = self.new.spare }) }
        ensures failed { IsErr result → self.new ≡ record self.old { spare = self.new.spare } }
    {
        self.reserve()?;
        match self.cell.hear(clock) {
            Some((stamp, call, reply, trace)) => {
                self.waiting -= 1;
                return Ok(Some((stamp, call, reply, trace)));
            }
            None => return Ok(None),
        }
    }

    /// How many cells the replies have that wait there, cut at 2^63.
    pub fn cells(&self) -> u64
        ensures cells { result ≡ cut (total (λ r. weigh_reply (λ n. 1) (reply_view r.1)) self.now.waiting) }
    {
        self.cell.cells()
    }
}
