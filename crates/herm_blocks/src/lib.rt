//! The blocks of a checked process, one for each node of its flow.
#![tactic(auto)]

mod block;
mod blocks;
mod checked;
mod edges;
mod handed;
mod led;
mod lengths;
mod node;
mod onward;
mod settle;
mod slots;
mod ways;

pub use block::{Block, Blocks};
pub use blocks::blocks_of;
pub use checked::CheckedProcess;
