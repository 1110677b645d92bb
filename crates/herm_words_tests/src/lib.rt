//! Tests of the words of refusals over source texts.
#![tactic(auto)]

#[cfg(test)]
mod program;
#[cfg(test)]
mod rows;
#[cfg(test)]
mod words;
