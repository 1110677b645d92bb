//! The words of the command line, read as a command.
#![tactic(auto)]

mod commands;
mod laws;
mod numbers;
mod options;
mod program;
mod subjects;

pub use commands::{Command, RunOptions, Shows, Source, WordsFault, command_of};
pub use laws::{asked_is_within, command_is_simple, examples};

#[cfg(test)]
mod tests;
