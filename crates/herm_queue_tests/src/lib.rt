//! Tests of ports, reply cells and the book over scripts of actions.
#![tactic(auto)]

#[cfg(test)]
mod queue;
