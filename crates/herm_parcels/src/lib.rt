//! Callmessages and polymorphs: plain containers of one type of content, which hold themselves through it.
#![tactic(auto)]

mod call;
mod poly;

pub use call::CallMsg;
pub use poly::{Poly, PolyFault};

#[cfg(test)]
mod tests;
