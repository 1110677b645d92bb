//! A world: the whole system of processes on one thread.
#![tactic(auto)]

mod beginning;
mod counted_port;
mod counted_replies;
mod doing;
mod ends;
mod looks;
mod numbers;
mod parts;
mod places;
mod reports;
mod rounds;
mod turns;
mod waits;
mod world;

pub use beginning::is_main;
pub use herm_report::{Counts, End, Journal, ProcEnd, Report, Spent};
pub use world::{World, WorldStep};
