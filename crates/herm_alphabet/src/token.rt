//! The tokens of a source file.
use crate::keyword::Keyword;
use crate::sign::Mark;
use herm_base::{Span, Word};

/// A token, and where it stands in the source file.
#[derive(Clone, Debug, Drop, PartialEq, Eq)]
pub struct Token {
    pub kind: TokenKind,
    pub span: Span,
}

/// What a token is: a keyword, another name, an integer, the content of a string, or a sign.
#[derive(Clone, Debug, Drop, PartialEq, Eq)]
pub enum TokenKind {
    Key(Keyword),
    Ident(Word),
    Int(i64),
    Text(Word),
    Sign(Mark),
}
