//! Tests of the program's top call over files and a sink in memory.
#![tactic(auto)]

#[cfg(test)]
mod call;
#[cfg(test)]
mod hello;
#[cfg(test)]
mod loads;
#[cfg(test)]
mod names;
#[cfg(test)]
mod rows;
#[cfg(test)]
mod strings;
