//! What comes back of a call.
ghost use Rattle.std.specs.Prelude.{◌≡◌, IfOk};
ghost use Rattle.herm_journal.specs.Entries.{map_reply, texts_of};
ghost use Rattle.herm_events.specs.View.{reply_trace_view};
ghost use Rattle.herm_letters.specs.View.{reply_view};

use crate::text::joined_trace_of;
use herm_base::ExcNo;
use herm_events::ReplyTrace;
use herm_values::Value;
use std::alloc::{AllocError, Global};

/// The answer to a call.
#[derive(Drop)]
pub enum Reply {
    /// The call returned, with the values of its `inout` and `out` parameters in declared order.
    Values(Vec<Value>),
    /// The call was answered with an exception and the values of the parameters that it keeps.
    Raised(ExcNo, Vec<Value>),
    /// The callmessage was finalised without a return.
    Gone,
}

/// The text of an answer to a call: of its values, joined by commas.
pub fn reply_trace_of(alloc: Global, reply: &Reply) -> Result<ReplyTrace, AllocError>
    ensures text { IfOk result (λ t. reply_trace_view t ≡ map_reply texts_of (reply_view reply.now)) }
{
    match reply {
        Reply::Values(values) => {
            let values = joined_trace_of(alloc, values.as_slice())?;
            Ok(ReplyTrace::Values(values))
        }
        Reply::Raised(exception, kept) => {
            let kept = joined_trace_of(alloc, kept.as_slice())?;
            Ok(ReplyTrace::Raised(*exception, kept))
        }
        Reply::Gone => Ok(ReplyTrace::Gone),
    }
}
