//! Tests of the lexer over tables of texts.
#![tactic(auto)]

#[cfg(test)]
mod lexer;
