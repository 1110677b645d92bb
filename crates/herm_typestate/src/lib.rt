//! Sets of facts: a tree of marks for each variable.
#![tactic(auto)]

mod excess;
mod facts;
mod labels;
mod same;
mod state;
mod tree;

pub use labels::Labels;
pub use same::same_fact;
pub use state::State;
