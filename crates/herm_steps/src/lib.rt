//! A process of compiled code: what comes next, what it wants of a place, and whether it has ended.
#![tactic(auto)]

mod branching;
mod coming;
mod doing;
mod evaluating;
mod expressions;
mod holding;
mod kinds;
mod leading;
mod messages;
mod next;
mod operands;
mod placing;
mod running;
mod running_on;
mod sound_steps;
mod stepping;
mod tabulating;
mod visiting;
mod wants;

pub use coming::Coming;
pub use expressions::{push_size, push_value};
pub use leading::outcome_of;
pub use messages::{count_piece, take_sent};
pub use next::Next;
pub use operands::{push_operand, push_operands};
pub use running::{End, Running};
pub use sound_steps::{runs_are_keyed, sound_steps_are_made};
