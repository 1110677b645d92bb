//! Tests of what statements need, make and take away, over source texts.
#![tactic(auto)]

#[cfg(test)]
mod examples;
#[cfg(test)]
mod rows;
#[cfg(test)]
mod shown;
#[cfg(test)]
mod statements;
