//! The words of a refusal of typestate: the fact that is missing, and the path on which it is.
#![tactic(auto)]

pub mod laws;
mod lost;
mod names;
mod order;
mod paths;
mod reading;
mod reason;
mod refusal;
mod sites;

pub use lost::{LostFact, lost_of};
pub use paths::{Paths, paths_of};
pub use reason::{MissingFact, Reason};
pub use sites::{Site, sites_of};
