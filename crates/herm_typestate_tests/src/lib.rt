//! Tests of states, labels and facts by hand.
#![tactic(auto)]

#[cfg(test)]
mod typestate;
