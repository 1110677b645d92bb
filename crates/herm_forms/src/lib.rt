// What a process holds and what each form does to it: bodies, evaluation, forms, exchanges, edges and weights. The
// definitions stand in specs/; the functions here are laws about them.
#![tactic(auto)]

pub mod arrival;
pub mod calls;
pub mod components;
pub mod exceptions;
pub mod expressions;
pub mod ledger;
pub mod targets;
pub mod typed_forms;
