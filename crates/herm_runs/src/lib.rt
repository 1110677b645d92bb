// Laws of runs over any machine that meets a few laws of one process. Each function here is one law, for a machine over
// any state of a process; the definitions stand in specs/.
#![tactic(auto)]

pub mod diaries;
pub mod joining;
pub mod places;
pub mod runs;
