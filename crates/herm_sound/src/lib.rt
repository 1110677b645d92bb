// Sound states of systems over any machine that keeps what is sound within one process. Each function here is one law; the
// definitions stand in specs/. What is sound within a process is said by the type of the states that are so.
#![tactic(auto)]

pub mod progress;
pub mod soundness;
