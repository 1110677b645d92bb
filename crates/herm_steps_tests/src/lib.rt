//! Tests of processes of short codes by hand.
#![tactic(auto)]

#[cfg(test)]
mod steps;
