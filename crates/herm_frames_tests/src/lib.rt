//! Tests of instructions on frames by hand.
#![tactic(auto)]

#[cfg(test)]
mod frames;
