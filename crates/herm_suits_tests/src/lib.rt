//! Tests of messages and replies by hand.
#![tactic(auto)]

#[cfg(test)]
mod suiting;
#[cfg(test)]
mod table;
