//! Tests of calls and returns by hand.
#![tactic(auto)]

#[cfg(test)]
mod answers;
