//! Tests of the text and of the status of a report by hand.
#![tactic(auto)]

#[cfg(test)]
mod reports;
