//! What is reported of a run: its journal, what became of each process, what is queued at each port, and its numbers.
#![tactic(auto)]

mod journal;
mod report;

pub use journal::Journal;
pub use report::{Counts, End, ProcEnd, Report, Spent};
