//! The program's top call: words, files, compile, run, and the text that is written.
#![tactic(auto)]

mod accepting;
mod answer;
mod loading;
mod outcome;
mod purpose;
mod running;
mod text;
mod top;

pub use outcome::{Aside, Difference, Outcome, Seen};
pub use top::hermes;
