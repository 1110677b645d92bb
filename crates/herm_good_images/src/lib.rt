//! The image of each checked program is good. The definitions stand in specs/; each function here is a law.
#![tactic(auto)]

pub mod laws;
