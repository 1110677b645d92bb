//! Tests of coercions over flows by hand.
#![tactic(auto)]

#[cfg(test)]
mod coerce;
