//! Tests of names and types over source texts.
#![tactic(auto)]

#[cfg(test)]
mod answer;
#[cfg(test)]
mod control;
#[cfg(test)]
mod examples;
#[cfg(test)]
mod limits;
#[cfg(test)]
mod programs;
#[cfg(test)]
mod rows;
#[cfg(test)]
mod statements;
#[cfg(test)]
mod values;
