//! Processes of images with their ports, as tests want them; and tests of such processes, from their beginning to their
//! end.
#![tactic(auto)]

mod actor;
mod driving;
mod hearing;
mod world;

pub use actor::Actor;
pub use world::{Most, Sums, World};

#[cfg(test)]
mod by_hand;
#[cfg(test)]
mod rows;
#[cfg(test)]
mod tests;
