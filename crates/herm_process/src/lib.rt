//! A process of an image with its diary, its clock and its budgets.
#![tactic(auto)]

mod birth;
mod next;
mod ordered;
mod ordering;
mod process;
mod settling;
mod stepping;

pub use birth::Birth;
pub use next::{Next, Spent};
pub use ordered::{Ordered, Sums};
pub use process::Process;
