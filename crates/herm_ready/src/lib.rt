//! The processes that can step, kept as bits.
#![tactic(auto)]

mod ready;

pub use ready::Ready;
