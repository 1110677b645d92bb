//! The code of a checked program: constants, the nodes of a body, and what each form becomes.
#![tactic(auto)]

pub mod behind;
mod calls;
pub mod constants;
pub mod departures;
pub mod exits;
pub mod expressions;
pub mod frame;
pub mod held;
pub mod nodes;
pub mod numbers;
mod one;
pub mod operands;
mod parts;
pub mod paths;
mod ports;
pub mod raised;
pub mod shapes;
mod tables;
mod trims;
mod values;
mod variants;
