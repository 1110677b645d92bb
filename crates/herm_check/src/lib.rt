//! Which facts are held at each point of a flow, and which needed ones are not.
#![tactic(auto)]

mod alike;
mod behind_edge;
mod checking;
mod effects;
mod held;
mod label;
mod label_states;
mod labels;
mod lists;
mod missing;
mod numbering;
mod search;
mod set_behind;

pub use behind_edge::behind;
pub use checking::{CheckFault, check};
pub use held::is_value_held_behind;
pub use labels::labels_of;
pub use missing::{Missing, MissingAt};
pub use search::{Hop, Link, Search, Visit, trail};

#[cfg(test)]
mod ready;
#[cfg(test)]
mod tests;
