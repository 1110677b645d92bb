//! Tests of the line on accepted files over source texts.
#![tactic(auto)]

#[cfg(test)]
mod answer;
#[cfg(test)]
mod examples;
#[cfg(test)]
mod lines;
