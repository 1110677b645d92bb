//! Tests of the command line over files and a sink in memory.
#![tactic(auto)]

#[cfg(test)]
mod call;
#[cfg(test)]
mod options;
