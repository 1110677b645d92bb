//! One process of an image, as a machine: its local steps, what it wants of a place, and what the answers leave.
#![tactic(auto)]

mod counting;
mod looking;
mod machine;
mod order;
mod settling;
mod suiting;
mod taking;
mod types;

pub use herm_exchanges::{PortList, Want};
pub use herm_steps::End;
pub use machine::Machine;
pub use order::{Got, Order};
