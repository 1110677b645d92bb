//! Values at the paths of a process's variables.
#![tactic(auto)]

mod exchanging;
mod places;
mod placing;
mod reading;
mod replacing;
mod taking;
mod variables;

pub use replacing::is_plain;
pub use variables::Variables;
