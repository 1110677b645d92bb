//! The replies that wait for a process.
ghost use Rattle.std.specs.Prelude.{◌≡◌, ◌++◌, ◌∷◌, [], ◌<◌, ◌≤◌, ◌-◌, None, IfSome, IfNone, OnOk};
ghost use Rattle.herm_model.specs.Lists.{total};
ghost use Rattle.herm_journal.specs.Weights.{weigh_reply};
ghost use Rattle.herm_system.specs.Summary.{cut};
ghost use Rattle.herm_events.specs.View.{reply_trace_view};
ghost use Rattle.herm_letters.specs.Letters.{IsWholeReply};
ghost use Rattle.herm_letters.specs.View.{reply_view};
ghost use Rattle.herm_queue.specs.CellStates.{reply_text};
ghost use Rattle.herm_queue.specs.ReplyStates.{IsReady};

use crate::left::{cells_of_replies, sum};
use herm_events::ReplyTrace;
use herm_letters::Reply;
use std::alloc::{AllocError, Global};
use std::collections::VecDeque;
use std::marker::Model;

/// A reply with the number of its call and its text.
#[derive(Drop)]
pub struct Answered {
    pub call: u64,
    pub reply: Reply,
    pub trace: ReplyTrace,
}

/// Replies, oldest first, and a further text of the first of them.
#[derive(Drop)]
pub struct Answers {
    waiting: VecDeque<Answered>,
    further: Option<ReplyTrace>,
}

impl Model for Answers {
    ghost use Rattle.std.specs.Prelude.{◌-◌, option_map, All};
    ghost use Rattle.std.specs.Coded.{codes};
    ghost use Rattle.std.specs.VecDeque.{deque_len, deque_capacity};
    ghost use Rattle.herm_letters.specs.contracts.reply.Reply as held;
    ghost use Rattle.herm_events.specs.View.{reply_trace_view};
    ghost use Rattle.herm_queue.specs.ReplyStates.{AnswerState};
    ghost use Rattle.herm_queue.specs.AnsweredReplies.{waiting_of, IsAnswered, IsFurther};

    ghost Value = { AnswerState };

    ghost coded = { Prim.hlevel (codes, held.the_row.coded) };

    ghost view = { λ a. record { waiting = waiting_of a.waiting.items; room = deque_capacity a.waiting - deque_len a.waiting; further = option_map reply_trace_view a.further } };

    ghost invariant = { λ a. All IsAnswered a.waiting.items × IsFurther a.waiting.items a.further };
}

impl Answers {
    /// No replies. It takes no memory.
    pub fn new(alloc: Global) -> Answers
        ensures waiting { result.waiting ≡ [] }
    {
        Answers {
            waiting: VecDeque::new(alloc),
            further: None,
        }
    }

    /// Makes room for one reply, and a further text of the first one.
    pub fn reserve(&mut self) -> Result<(), AllocError>
        ensures waiting { self.new.waiting ≡ self.old.waiting }
        ensures room { OnOk result (1 ≤ self.new.room) }
        ensures ready { OnOk result (IsReady self.new) }
        ensures more_room { self.old.room ≤ self.new.room }
    {
        self.waiting.reserve(1)?;
        if self.further.is_none() {
            if let Some(first) = self.waiting.front() {
                let further = first.trace.again()?;
                self.further = Some(further);
            }
        }
        Ok(())
    }

    /// Puts a reply behind the others, for which there is room.
    pub fn put(&mut self, answered: Answered)
        requires room { 1 ≤ self.old.room }
        requires whole { IsWholeReply answered.reply }
        requires text { reply_trace_view answered.trace ≡ reply_text answered.reply }
        ensures waiting { self.new.waiting ≡ self.old.waiting ++ (answered.call, answered.reply) ∷ [] }
        ensures room { self.new.room ≡ self.old.room - 1 }
    {
        self.waiting.push_back_reserved(answered);
    }

    /// Takes the first reply out, if there is one, with its further text, which is there.
    pub fn take(&mut self) -> Option<(Answered, ReplyTrace)>
        requires ready { IsReady self.old }
        ensures first { IfSome result (λ r. self.old.waiting ≡ (r.0.call, r.0.reply) ∷ self.new.waiting) }
        ensures whole { IfSome result (λ r. IsWholeReply r.0.reply) }
        ensures text { IfSome result (λ r. reply_trace_view r.0.trace ≡ reply_text r.0.reply) }
        ensures further { IfSome result (λ r. reply_trace_view r.1 ≡ reply_text r.0.reply) }
        ensures more_room { self.old.room ≤ self.new.room }
        ensures empty { IfNone result (self.old.waiting ≡ []) }
        ensures unchanged { IfNone result (self.new ≡ self.old) }
    {
        match self.further.take() {
            Some(further) => match self.waiting.pop_front() {
                Some(answered) => Some((answered, further)),
                None => None,
            },
            None => None,
        }
    }

    /// How many cells the replies have.
    #[tactic(auto, using(crate::proofs::Weighed::joined_cut))]
    pub fn cells(&self) -> u64
        ensures cells { result ≡ cut (total (λ r. weigh_reply (λ n. 1) (reply_view r.1)) self.now.waiting) }
    {
        let (first, second) = self.waiting.as_slices();
        sum(cells_of_replies(first), cells_of_replies(second))
    }
}
