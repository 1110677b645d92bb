// Code: instructions, the labels of indices, code modules and images. The definitions stand in specs/.
#![tactic(auto)]

pub mod examples;
pub mod good_code;
