//! Refusals: what each says, and the writing of their lines.
#![tactic(auto)]

mod fault;
mod lines;

pub use fault::Fault;
pub use lines::put_refusals;
