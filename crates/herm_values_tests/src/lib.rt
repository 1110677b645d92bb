//! Tests of values and tables by hand.
#![tactic(auto)]

#[cfg(test)]
mod values;
