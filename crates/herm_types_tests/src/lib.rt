//! Tests of the type table: each call by hand.
#![tactic(auto)]

#[cfg(test)]
mod types;
