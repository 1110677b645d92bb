//! The alphabet of the language: keywords, signs and the kinds of tokens. The lexer reads them from bytes,
//! and they are the symbols of the grammar.
#![tactic(auto)]

mod keyword;
mod sign;
mod token;

pub use keyword::Keyword;
pub use sign::Mark;
pub use token::{Token, TokenKind};
