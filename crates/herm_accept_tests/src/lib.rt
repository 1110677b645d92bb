//! Tests of the typestate check over source texts.
#![tactic(auto)]

#[cfg(test)]
mod answer;
#[cfg(test)]
mod calls;
#[cfg(test)]
mod control;
#[cfg(test)]
mod dropped;
#[cfg(test)]
mod drops;
#[cfg(test)]
mod examples;
#[cfg(test)]
mod meant;
#[cfg(test)]
mod ports;
#[cfg(test)]
mod programs;
#[cfg(test)]
mod rows;
#[cfg(test)]
mod searches;
#[cfg(test)]
mod tables;
#[cfg(test)]
mod targets;
#[cfg(test)]
mod values;
#[cfg(test)]
mod variants;
