//! Names and types of process modules: the program that they mean, or each wrong name and type.
#![tactic(auto)]

mod process;
mod program;
mod reach;
mod statements;

pub use herm_numbers::{NameCode, NameFault, ResolveFault};
pub use program::{Program, resolve};
