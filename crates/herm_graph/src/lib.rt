//! What the types of a table lead to by the names in their shapes, of which some may be names of no type.
#![tactic(auto)]

mod analysis;
mod copies;
mod cycles;
mod depth;
mod graph;
mod hints;
mod links;
mod unknown;

pub use analysis::{TypeTests, tests_of};
