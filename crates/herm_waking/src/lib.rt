// What wakes a process, and rounds over the processes that can step, over any machine. Each function here is one law; the
// definitions stand in specs/. What is sound within a process is said by the type of the states that are so.
#![tactic(auto)]

pub mod diary;
pub mod examples;
pub mod numbers;
pub mod report;
pub mod rounds;
pub mod unnamed;
pub mod waking;
