//! The image of an accepted program, which is good and does what the program does.
#![tactic(auto)]

mod images;
pub mod laws;

pub use images::image;
