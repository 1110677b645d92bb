//! What is known at a point of a process.
ghost use Rattle.herm_typestate.specs.Small.{AreSmall};

use crate::tree::Tree;

/// A set of facts: for each variable by its number, a tree of what is known of it.
#[derive(Drop)]
pub struct State {
    pub(crate) vars: Vec<Tree>,
    ghost small: { AreSmall vars.items },
}
