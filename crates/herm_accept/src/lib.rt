//! The typestate check of all processes of a program.
#![tactic(auto)]

mod accepting;
mod checked;
mod lacks;

pub use accepting::{AcceptFault, Accepted, Lack, accept};
pub use lacks::lacks_of;
