// The source machine: processes of the language and their steps, what is sound within a process, and what is claimed of a
// run. The definitions stand in specs/; the functions here are laws about them.
#![tactic(auto)]

pub mod arrival;
pub mod checked_examples;
pub mod counts;
pub mod examples;
pub mod forgetting;
pub mod ledger;
pub mod machine;
pub mod middle_examples;
pub mod needs;
pub mod places;
pub mod runs;
pub mod sound_processes;
