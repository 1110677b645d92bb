//! The small types that every other crate shares: numbers, spans, words, limits and decimal texts.
#![tactic(auto)]

mod decimal_text;
mod limits;
mod numbers;
mod word;

pub use decimal_text::{decimal, decimal_is_exact, signed};
pub use limits::{LimitFault, LimitName, Limits};
pub use numbers::{ExcNo, PortNo, ProcNo, StmtNo, TypeNo, VarNo};
pub use word::{Name, Span, Word};

#[cfg(test)]
mod tests;
