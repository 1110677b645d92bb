// Runs of checked programs: each state is sound, no process is stuck, and rounds end. The definitions stand in specs/; the functions
// here are laws about them.
#![tactic(auto)]

pub mod checked_runs;
pub mod running_programs;
