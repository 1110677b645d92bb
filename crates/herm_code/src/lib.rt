//! Compiled code: instructions, code modules and images, of which each is good.
#![tactic(auto)]

mod image;
mod instr;
mod modules;

pub use image::Image;
pub use instr::{Arg, Arm, Instr};
pub use modules::{CodeModule, Const, Label};

#[cfg(test)]
mod tests;
