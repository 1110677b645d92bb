//! The parser: the tokens of a source file as its modules, or the fault at the exact token.
#![tactic(auto)]

mod blocks;
mod brackets;
mod definitions;
mod expressions;
mod fault;
mod forms;
mod laws;
mod modules;
mod operators;
mod parser;
mod parts;
mod paths;
mod stop;
mod tokens;

pub use fault::ParseFault;
pub use laws::has_one_answer;
pub use parser::parse;
