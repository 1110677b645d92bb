//! Tests of compiled texts.
#![tactic(auto)]

#[cfg(test)]
mod answers;
#[cfg(test)]
mod images;
#[cfg(test)]
mod refusals;
