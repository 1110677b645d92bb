//! Tests of flows over source texts.
#![tactic(auto)]

#[cfg(test)]
mod answer;
#[cfg(test)]
mod examples;
#[cfg(test)]
mod flows;
#[cfg(test)]
mod text;
