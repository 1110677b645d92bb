//! Tests of definitions over source texts.
#![tactic(auto)]

#[cfg(test)]
mod answer;
#[cfg(test)]
mod depth;
#[cfg(test)]
mod faults;
#[cfg(test)]
mod rows;
#[cfg(test)]
mod shown;
#[cfg(test)]
mod tables;
