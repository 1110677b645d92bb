//! Tests of the code of programs over source texts.
#![tactic(auto)]

#[cfg(test)]
mod by_hand;
#[cfg(test)]
mod compiled;
#[cfg(test)]
mod listing;
#[cfg(test)]
mod meant;
#[cfg(test)]
mod programs;
#[cfg(test)]
mod tests;
#[cfg(test)]
mod words;
