//! Compiled code as it is run: its instructions by index, where their outcomes lead, and its pieces.
#![tactic(auto)]

mod code;
mod kinds;
mod outcomes;
mod pieces;

pub use code::Code;
pub use kinds::{begins_piece, is_action, is_operand, is_step};
pub use outcomes::Outcome;
pub use pieces::{Met, Piece, Position};
