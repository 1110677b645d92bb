//! What is recorded of a run: stamps, places, the texts of values, actions and entries, diaries and histories.
#![tactic(auto)]

mod diary;
mod entry;
mod history;
mod lines;
mod trace;

pub use diary::Diary;
pub use entry::{Action, Entry, Place, ReplyTrace, Stamp, next_stamp};
pub use history::History;
pub use lines::entry_text;
pub use trace::{Trace, Traces};
