//! Entries: what a process did at a place, at a stamp.
ghost use Rattle.std.specs.Prelude.{◌≡◌, ◌<◌, ◌^◌, suc, max, IfOk};
ghost use Rattle.herm_events.specs.View.{reply_trace_view};

use crate::{Trace, Traces};
use herm_base::{ExcNo, PortNo, ProcNo};
use std::alloc::AllocError;

/// A time of a run: each entry's stamp is one more than the larger of the clocks of its process and of its place.
/// (Lamport, Time, Clocks, and the Ordering of Events in a Distributed System, 1978.)
#[derive(Clone, Copy, Debug, PartialEq, Eq, PartialOrd, Ord, Hash)]
pub struct Stamp(pub u64);

/// One more than the larger of two clocks, each below 2^63.
pub fn next_stamp(process: Stamp, place: Stamp) -> Stamp
    requires process { process.0 < 2 ^ 63 }
    requires place { place.0 < 2 ^ 63 }
    ensures stamp { result.0 ≡ suc (max process.0 place.0) }
{
    Stamp(process.0.max(place.0) + 1)
}

/// Where an action is done.
#[derive(Clone, Copy, Debug, PartialEq, Eq)]
pub enum Place {
    /// The queue of a port.
    Port(PortNo),
    /// The cell in which a process hears the answers to its calls.
    Reply(ProcNo),
    /// The book of ports and processes made.
    Book,
}

/// The text of an answer to a call.
#[derive(Debug, Drop, PartialEq, Eq)]
pub enum ReplyTrace {
    /// The call returned, with these values.
    Values(Trace),
    /// The call was answered with an exception and the values of the parameters that it keeps.
    Raised(ExcNo, Trace),
    /// The callmessage was finalised without a return.
    Gone,
}

impl ReplyTrace {
    /// An equal text of an answer. The bytes of a long one are shared, not copied.
    pub fn again(&self) -> Result<ReplyTrace, AllocError>
        ensures same { IfOk result (λ r. reply_trace_view r ≡ reply_trace_view self.now) }
    {
        match self {
            ReplyTrace::Values(values) => {
                let values = values.again()?;
                Ok(ReplyTrace::Values(values))
            }
            ReplyTrace::Raised(exception, kept) => {
                let kept = kept.again()?;
                Ok(ReplyTrace::Raised(*exception, kept))
            }
            ReplyTrace::Gone => Ok(ReplyTrace::Gone),
        }
    }
}

/// What a process did at a place, with its answer.
#[derive(Debug, Drop)]
pub enum Action {
    /// A port was made, unless the limit was reached.
    MakePort {
        made: Option<PortNo>,
    },
    /// A process of this module was made with its port, unless a limit was reached.
    MakeProcess {
        module: u32,
        made: Option<(ProcNo, PortNo)>,
    },
    /// A message was queued under a number, or found the port closed.
    Put {
        number: Option<u64>,
        trace: Trace,
    },
    /// The oldest message was taken.
    Take {
        number: u64,
        trace: Trace,
    },
    /// The port was closed, and the messages left were handed over in queue order.
    Close {
        count: u64,
        left: Traces,
    },
    /// A call was answered.
    Answer {
        call: u64,
        reply: ReplyTrace,
    },
    /// An answer was heard.
    Hear {
        call: u64,
        reply: ReplyTrace,
    },
}

/// One action of a run.
#[derive(Debug, Drop)]
pub struct Entry {
    pub stamp: Stamp,
    pub proc: ProcNo,
    pub place: Place,
    pub action: Action,
}

// An entry is small, since a run keeps two for each action.
const _: () = prove!(size_of::<Entry>() <= 80);
