// What processes hold, for each machine that runs the forms of statements: cells at places of their types, what is sent and answered of them,
// and how many of a kind there are. The proofs stand in proofs/; the function here is a law.
#![tactic(auto)]

pub mod held;
