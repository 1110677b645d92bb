// The machine of code: processes of compiled code and their steps. The definitions stand in specs/; the functions here are
// laws about them.
#![tactic(auto)]

pub mod examples;
pub mod good_images;
pub mod instructions;
pub mod machine;
pub mod pieces;
pub mod runs;
pub mod sound_images;
pub mod trims;
