//! Laws: the text and the status of a report are those of the run that it tells of.
#![tactic(auto)]

mod laws;

pub use laws::{consoles_hold_strings, reports_describe_runs, texts_are_of_runs};
