//! What holds of every file.
ghost use Rattle.herm_lexer.specs.laws.TokenLaws.{OneTokenList, OneFault, TokensOrFault, TokensElseFault, TokensSpellFile, TokensAreSource, PiecesAreLongest};

/// A file has at most one token list.
pub fn one_token_list()
    ensures { OneTokenList }
{}

/// A file has at most one fault.
pub fn one_fault()
    ensures { OneFault }
{}

/// A token list and a fault exclude each other.
pub fn tokens_or_fault()
    ensures { TokensOrFault }
{}

/// A file has a token list or a fault.
pub fn tokens_else_fault()
    ensures { TokensElseFault }
{}

/// The bytes at each token's place spell it, and the places stand one behind the other.
pub fn tokens_spell_file()
    ensures { TokensSpellFile }
{}

/// The tokens of a file are within the limits of tokens: names, integers and texts that a source file can have.
pub fn tokens_are_source()
    ensures { TokensAreSource }
{}

/// Each piece of a file is the longest that stands there.
pub fn pieces_are_longest()
    ensures { PiecesAreLongest }
{}
