//! Rows with different keys, in the order of their insertion.
#![tactic(auto)]

mod index;
mod row;
mod rows;

pub use row::Row;
pub use rows::{InsertFault, MOST_ROWS, Rows};

#[cfg(test)]
mod tests;
