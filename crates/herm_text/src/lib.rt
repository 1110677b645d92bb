//! The text that a run writes, and its status, by its report.
#![tactic(auto)]

mod console;
mod journals;
mod numbers;
mod run_texts;
mod statuses;
mod summaries;

pub use run_texts::{Asked, run_text};
pub use statuses::status;
