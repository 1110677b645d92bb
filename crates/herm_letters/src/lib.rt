//! What travels between processes: the texts of values, letters that are put, parcels that wait, and replies.
#![tactic(auto)]

mod letter;
mod parcel;
mod reply;
mod scalars;
mod text;

pub use letter::Letter;
pub use parcel::{Parcel, Parcels};
pub use reply::{Reply, reply_trace_of};
pub use text::trace_of;
