//! What process modules mean, every name replaced by its number, and where their names and types are wrong. The
//! definitions stand in `specs/`; the functions here are laws about them.
#![tactic(auto)]

pub mod laws;
