//! The flow of a process: its statements as points, and where each outcome leads.
#![tactic(auto)]

mod called;
mod calls;
mod changes;
mod counts;
mod edges;
mod flow;
mod kept;
mod leads;
mod lists;
mod marks;
mod onward;
mod parts;
mod points;
mod process;
mod starts;
mod tables;
mod touched;
mod walk;

pub use flow::{Change, Edge, Flow, Point, Target};
pub use onward::{NO_LIST, OnwardEdge, OnwardFlow, OnwardPoint};
pub use process::{flow_of, onward_flow_of};
