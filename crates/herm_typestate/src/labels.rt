//! The facts that are held at each point of a process.
use crate::state::State;

/// A set of facts for each point, by the points' places.
#[derive(Drop)]
pub struct Labels {
    pub at: Vec<State>,
}
