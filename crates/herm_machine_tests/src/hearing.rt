//! A reply that waits to be heard.
ghost use Rattle.std.specs.Prelude.{◌≡◌, IfOk};
ghost use Rattle.herm_journal.specs.Entries.{map_reply, texts_of};
ghost use Rattle.herm_events.specs.View.{reply_trace_view};
ghost use Rattle.herm_letters.specs.Letters.{IsWholeReply};
ghost use Rattle.herm_letters.specs.View.{reply_view};

use herm_events::ReplyTrace;
use herm_letters::Reply;
use std::marker::Model;

/// A whole reply with its text.
#[derive(Drop)]
pub struct Hearing {
    reply: Reply,
    trace: ReplyTrace,
}

impl Model for Hearing {
    ghost use Rattle.std.specs.Prelude.{◌≡◌};
    ghost use Rattle.std.specs.Coded.{codes};
    ghost use Rattle.herm_letters.specs.contracts.reply.Reply as held;
    ghost use Rattle.herm_letters.specs.declared.reply.Reply as declared;
    ghost use Rattle.herm_journal.specs.Entries.{map_reply, texts_of};
    ghost use Rattle.herm_events.specs.View.{reply_trace_view};
    ghost use Rattle.herm_letters.specs.Letters.{IsWholeReply};
    ghost use Rattle.herm_letters.specs.View.{reply_view};

    ghost Value = { declared.Reply };

    ghost coded = { Prim.hlevel (codes, held.the_row.coded) };

    ghost view = { λ h. h.reply };

    ghost invariant = { λ h. IsWholeReply h.reply × (reply_trace_view h.trace ≡ map_reply texts_of (reply_view h.reply)) };
}

impl Hearing {
    /// The reply and its text.
    pub fn of(reply: Reply, trace: ReplyTrace) -> Hearing
        requires whole { IsWholeReply reply }
        requires text { reply_trace_view trace ≡ map_reply texts_of (reply_view reply) }
    {
        Hearing { reply, trace }
    }

    /// The reply and its text.
    pub fn into_parts(self) -> (Reply, ReplyTrace)
        ensures whole { IsWholeReply result.0 }
        ensures text { reply_trace_view result.1 ≡ map_reply texts_of (reply_view result.0) }
    {
        (self.reply, self.trace)
    }
}
