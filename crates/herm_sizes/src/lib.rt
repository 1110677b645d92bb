//! How large a program is, and the line on files that are accepted.
#![tactic(auto)]

mod accepted;
mod counts;

pub use accepted::accepted_line;
