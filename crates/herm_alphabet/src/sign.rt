//! Signs and their characters.
ghost use Rattle.std.specs.Prelude.{◌≡◌};
ghost use Rattle.herm_alphabet.specs.KeywordLetters.{characters};

/// The signs.
#[derive(Clone, Copy, Debug, PartialEq, Eq)]
pub enum Mark {
    /// `(`
    ParenOpen,
    /// `)`
    ParenClose,
    /// `{`
    BraceOpen,
    /// `}`
    BraceClose,
    /// `[`
    BracketOpen,
    /// `]`
    BracketClose,
    /// `,`
    Comma,
    /// `;`
    Semicolon,
    /// `:`
    Colon,
    /// `:=`
    Becomes,
    /// `.`
    Dot,
    /// `#`
    Hash,
    /// `=`
    Equal,
    /// `<>`
    NotEqual,
    /// `<`
    Less,
    /// `<=`
    LessEqual,
    /// `>`
    Greater,
    /// `>=`
    GreaterEqual,
    /// `+`
    Plus,
    /// `-`
    Minus,
    /// `*`
    Star,
    /// `&`
    Ampersand,
}

impl Mark {
    /// The characters of a sign.
    pub fn characters(self) -> &'static [u8]
        ensures { result.now ≡ characters self }
    {
        match self {
            Mark::ParenOpen => b"(",
            Mark::ParenClose => b")",
            Mark::BraceOpen => b"{",
            Mark::BraceClose => b"}",
            Mark::BracketOpen => b"[",
            Mark::BracketClose => b"]",
            Mark::Comma => b",",
            Mark::Semicolon => b";",
            Mark::Colon => b":",
            Mark::Becomes => b":=",
            Mark::Dot => b".",
            Mark::Hash => b"#",
            Mark::Equal => b"=",
            Mark::NotEqual => b"<>",
            Mark::Less => b"<",
            Mark::LessEqual => b"<=",
            Mark::Greater => b">",
            Mark::GreaterEqual => b">=",
            Mark::Plus => b"+",
            Mark::Minus => b"-",
            Mark::Star => b"*",
            Mark::Ampersand => b"&",
        }
    }
}
