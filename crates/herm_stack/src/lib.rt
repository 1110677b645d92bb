//! Values on the stack of a process, and what the instructions of expressions do with them.
#![tactic(auto)]

mod answers;
mod integers;
mod operands;
mod operators;
mod scalars;
mod stack;
mod texts;

pub use answers::{Completion, Evaluation};
pub use operators::{Binary, Unary};
pub use stack::Stack;
