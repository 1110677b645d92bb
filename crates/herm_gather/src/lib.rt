//! What a report of a run gathers from its parts: the journal from diaries, and the numbers from what each part counts.
#![tactic(auto)]

mod counting;
mod ending;
mod merging;
mod places;
mod sums;

pub use counting::{PortCounts, ProcCounts, counts_of};
pub use merging::journal_of;
