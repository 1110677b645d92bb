//! The code of a process of the source. The definitions stand in specs/; each function here is a law.
#![tactic(auto)]

pub mod constants;
pub mod examples;
pub mod layout;
pub mod structure;
