//! What a process holds but its position, and what instructions do with it.
#![tactic(auto)]

mod columns;
mod contents;
mod counts;
mod ends;
mod excess;
mod frame;
mod held;
mod insertions;
mod keyed;
mod loops;
mod moves;
mod outcome;
mod polymorphs;
mod rekeying;
mod removals;
mod rows;
mod tables;
mod turns;
mod types;

pub use frame::Frame;
pub use loops::Loop;
pub use moves::tested;
pub use outcome::Outcome;
