//! Lists of nodes that are linked by their places in one storage.
#![tactic(auto)]

mod links;
mod nodes;

pub use links::{Links, ListNo, NodeNo};

#[cfg(test)]
mod tests;
