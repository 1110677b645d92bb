//! Tests of files, words and the console.
#![tactic(auto)]

#[cfg(test)]
mod edge;
