//! Whether what came in is what a process waits for: a message of its port's type, a reply to its call.
#![tactic(auto)]

mod exact;
mod keys;
mod layouts;
mod messages;
mod replies;
mod rows;
mod typing;
mod well_made;

pub use messages::is_message;
pub use replies::is_reply_to;
pub use well_made::is_well_made;
