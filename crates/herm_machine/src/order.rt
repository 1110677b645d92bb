//! What a process orders of a place, and what it gets for it.
use herm_base::{PortNo, ProcNo};
use herm_events::{ReplyTrace, Trace};
use herm_exchanges::PortList;
use herm_letters::{Letter, Parcel, Parcels, Reply};
use herm_values::Value;

/// What a process wants of a place, with the letter or the reply that goes there, and the texts of the reply for the diary and
/// for the cell's history.
#[derive(Drop)]
pub enum Order {
    MakePort,
    MakeProcess(u32),
    Put(PortNo, Letter),
    Take(PortList),
    Close(PortNo),
    Answer(ProcNo, u64, Reply, ReplyTrace, ReplyTrace),
    Hear,
}

/// What a process gets of a place, with the texts of what travels.
#[derive(Drop)]
pub enum Got {
    /// A new port, or none.
    Port(Option<PortNo>),
    /// A new process with its port, or none.
    Process(Option<(ProcNo, PortNo)>),
    /// The message was placed under this number, from 0 on.
    Placed {
        number: u64,
        trace: Trace,
    },
    /// The message came back, since its port is closed.
    Back {
        value: Value,
        trace: Trace,
    },
    /// A message of this port.
    Message {
        port: PortNo,
        parcel: Parcel,
    },
    /// The port was closed, and these messages were left in it.
    Left(Parcels),
    /// The call was answered.
    Answered,
    /// The reply to the call of this number.
    Heard {
        call: u64,
        reply: Reply,
        trace: ReplyTrace,
    },
}
