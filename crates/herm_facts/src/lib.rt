//! Facts by numbers, and sets of them.
#![tactic(auto)]

mod fact_numbers;
mod fact_set;
mod number_set;
mod numbered;
mod numbering;
mod sets_of_facts;
mod sparse_set;
mod sparse_words;

pub use fact_numbers::FactNumbers;
pub use fact_set::FactSet;
pub use number_set::NumberSet;
pub use sparse_set::SparseSet;

#[cfg(test)]
mod number_tests;
#[cfg(test)]
mod set_tests;
