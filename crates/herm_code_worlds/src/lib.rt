//! Worlds of compiled code: the laws of worlds, of every good image. The definitions stand in specs/; each function here is a law.
#![tactic(auto)]

pub mod checked_programs;
pub mod images;
