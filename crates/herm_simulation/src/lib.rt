//! The code of a process does what its source does. The definitions stand in specs/; each function here is a law.
#![tactic(auto)]

pub mod checked_programs;
pub mod checks;
pub mod edges;
pub mod examples;
pub mod fronts;
pub mod simulation;
