//! The code of a checked program: its code modules and the constants of all.
#![tactic(auto)]

mod arrivals;
mod labels;
mod layout;
mod lines;
mod modules;
mod process;
mod program;

pub use program::{Generated, generate};
