//! What each edge of a flow finalises.
#![tactic(auto)]

mod coercions;
pub mod laws;

pub use coercions::{Coercions, coerce};
