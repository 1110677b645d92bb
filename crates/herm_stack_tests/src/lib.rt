//! Tests of the operand stack by hand.
#![tactic(auto)]

#[cfg(test)]
mod stack;
