//! Tests of the parser over source texts: trees as short texts, and faults.
#![tactic(auto)]

#[cfg(test)]
mod brackets;
#[cfg(test)]
mod faults;
#[cfg(test)]
mod shape;
#[cfg(test)]
mod text;
#[cfg(test)]
mod trees;
