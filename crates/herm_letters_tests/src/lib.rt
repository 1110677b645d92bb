//! Tests of letters by hand.
#![tactic(auto)]

#[cfg(test)]
mod letters;
