//! Tests of entries, histories and their texts by hand.
#![tactic(auto)]

#[cfg(test)]
mod events;
