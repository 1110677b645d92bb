//! Tests of worlds.
#![tactic(auto)]

#[cfg(test)]
mod led;
#[cfg(test)]
mod programs;
#[cfg(test)]
mod rows;
#[cfg(test)]
mod worlds;
