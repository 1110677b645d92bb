//! What a process of compiled code gives to its actions, and what their answers leave.
#![tactic(auto)]

mod acting;
mod composing;
mod going;
mod hearing;
mod incoming;
mod paths;
mod putting;
mod replying;
mod returning;
mod sending;
mod types;
mod working;

pub use acting::{action_at, came_in};
pub use hearing::was_heard;
pub use incoming::Incoming;
pub use putting::{Putting, was_placed, was_sent_back};
pub use replying::{front_reply, take_reply};
pub use returning::{Returning, was_returned};
pub use sending::take_message;
pub use working::{was_answered, was_closed};
