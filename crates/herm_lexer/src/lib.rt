//! The lexer: a source file's bytes as tokens, or the first fault among them.
#![tactic(auto)]

mod bytes;
mod fault;
mod laws;
mod lexer;
mod name;
mod number;
mod piece;
mod run;
mod sign;
mod string;

pub use fault::LexFault;
pub use herm_alphabet::{Keyword, Mark, Token, TokenKind};
pub use laws::{
    one_fault, one_token_list, pieces_are_longest, tokens_are_source, tokens_else_fault,
    tokens_or_fault, tokens_spell_file,
};
pub use lexer::lex;
