//! Keywords and their letters.
ghost use Rattle.std.specs.Prelude.{◌≡◌, ◌≢◌, IfSome, IfNone};
ghost use Rattle.herm_alphabet.specs.KeywordLetters.{letters, keyword_of, found_among, starting_with};

/// The keywords, which are names that are reserved.
#[derive(Clone, Copy, Debug, PartialEq, Eq)]
pub enum Keyword {
    KwAnd,
    KwAs,
    KwCall,
    KwCallmessage,
    KwCase,
    KwConnect,
    KwCreate,
    KwDefinitions,
    KwDiscard,
    KwDissolve,
    KwDiv,
    KwElse,
    KwEnum,
    KwException,
    KwFalse,
    KwFor,
    KwFrom,
    KwFull,
    KwGet,
    KwIf,
    KwIn,
    KwInit,
    KwInout,
    KwInport,
    KwInsert,
    KwInto,
    KwKey,
    KwLeave,
    KwLength,
    KwMod,
    KwMove,
    KwNew,
    KwNot,
    KwOf,
    KwOn,
    KwOr,
    KwOut,
    KwOutport,
    KwProcess,
    KwRaise,
    KwRaises,
    KwReceive,
    KwRecord,
    KwRemove,
    KwReturn,
    KwReveal,
    KwSelect,
    KwSend,
    KwSize,
    KwTable,
    KwText,
    KwTo,
    KwTrue,
    KwTry,
    KwType,
    KwUnite,
    KwUnwrap,
    KwVar,
    KwVariant,
    KwWhen,
    KwWhile,
    KwWrap,
}

impl Keyword {
    /// The keyword with these letters, if there is one.
    pub fn from_letters(text: &[u8]) -> Option<Keyword>
        ensures exact { result ≡ keyword_of text.now }
        ensures some { IfSome result (λ keyword. text.now ≡ letters keyword) }
        ensures none { IfNone result ((keyword : Keyword) → text.now ≢ letters keyword) }
    {
        find_keyword(text)
    }

    /// The letters of a keyword.
    pub fn letters(self) -> &'static [u8]
        ensures { result.now ≡ letters self }
    {
        match self {
            Keyword::KwAnd => b"and",
            Keyword::KwAs => b"as",
            Keyword::KwCall => b"call",
            Keyword::KwCallmessage => b"callmessage",
            Keyword::KwCase => b"case",
            Keyword::KwConnect => b"connect",
            Keyword::KwCreate => b"create",
            Keyword::KwDefinitions => b"definitions",
            Keyword::KwDiscard => b"discard",
            Keyword::KwDissolve => b"dissolve",
            Keyword::KwDiv => b"div",
            Keyword::KwElse => b"else",
            Keyword::KwEnum => b"enum",
            Keyword::KwException => b"exception",
            Keyword::KwFalse => b"false",
            Keyword::KwFor => b"for",
            Keyword::KwFrom => b"from",
            Keyword::KwFull => b"full",
            Keyword::KwGet => b"get",
            Keyword::KwIf => b"if",
            Keyword::KwIn => b"in",
            Keyword::KwInit => b"init",
            Keyword::KwInout => b"inout",
            Keyword::KwInport => b"inport",
            Keyword::KwInsert => b"insert",
            Keyword::KwInto => b"into",
            Keyword::KwKey => b"key",
            Keyword::KwLeave => b"leave",
            Keyword::KwLength => b"length",
            Keyword::KwMod => b"mod",
            Keyword::KwMove => b"move",
            Keyword::KwNew => b"new",
            Keyword::KwNot => b"not",
            Keyword::KwOf => b"of",
            Keyword::KwOn => b"on",
            Keyword::KwOr => b"or",
            Keyword::KwOut => b"out",
            Keyword::KwOutport => b"outport",
            Keyword::KwProcess => b"process",
            Keyword::KwRaise => b"raise",
            Keyword::KwRaises => b"raises",
            Keyword::KwReceive => b"receive",
            Keyword::KwRecord => b"record",
            Keyword::KwRemove => b"remove",
            Keyword::KwReturn => b"return",
            Keyword::KwReveal => b"reveal",
            Keyword::KwSelect => b"select",
            Keyword::KwSend => b"send",
            Keyword::KwSize => b"size",
            Keyword::KwTable => b"table",
            Keyword::KwText => b"text",
            Keyword::KwTo => b"to",
            Keyword::KwTrue => b"true",
            Keyword::KwTry => b"try",
            Keyword::KwType => b"type",
            Keyword::KwUnite => b"unite",
            Keyword::KwUnwrap => b"unwrap",
            Keyword::KwVar => b"var",
            Keyword::KwVariant => b"variant",
            Keyword::KwWhen => b"when",
            Keyword::KwWhile => b"while",
            Keyword::KwWrap => b"wrap",
        }
    }
}

// The keywords that begin with this letter.
#[tactic(auto, unfolding(crate::specs::KeywordLetters::starting_with))]
fn starting_with(first: u8) -> &'static [Keyword]
    ensures { result.now ≡ starting_with first }
{
    match first {
        b'a' => &[Keyword::KwAnd, Keyword::KwAs],
        b'c' => &[
            Keyword::KwCall,
            Keyword::KwCallmessage,
            Keyword::KwCase,
            Keyword::KwConnect,
            Keyword::KwCreate,
        ],
        b'd' => &[
            Keyword::KwDefinitions,
            Keyword::KwDiscard,
            Keyword::KwDissolve,
            Keyword::KwDiv,
        ],
        b'e' => &[Keyword::KwElse, Keyword::KwEnum, Keyword::KwException],
        b'f' => &[
            Keyword::KwFalse,
            Keyword::KwFor,
            Keyword::KwFrom,
            Keyword::KwFull,
        ],
        b'g' => &[Keyword::KwGet],
        b'i' => &[
            Keyword::KwIf,
            Keyword::KwIn,
            Keyword::KwInit,
            Keyword::KwInout,
            Keyword::KwInport,
            Keyword::KwInsert,
            Keyword::KwInto,
        ],
        b'k' => &[Keyword::KwKey],
        b'l' => &[Keyword::KwLeave, Keyword::KwLength],
        b'm' => &[Keyword::KwMod, Keyword::KwMove],
        b'n' => &[Keyword::KwNew, Keyword::KwNot],
        b'o' => &[
            Keyword::KwOf,
            Keyword::KwOn,
            Keyword::KwOr,
            Keyword::KwOut,
            Keyword::KwOutport,
        ],
        b'p' => &[Keyword::KwProcess],
        b'r' => &[
            Keyword::KwRaise,
            Keyword::KwRaises,
            Keyword::KwReceive,
            Keyword::KwRecord,
            Keyword::KwRemove,
            Keyword::KwReturn,
            Keyword::KwReveal,
        ],
        b's' => &[Keyword::KwSelect, Keyword::KwSend, Keyword::KwSize],
        b't' => &[
            Keyword::KwTable,
            Keyword::KwText,
            Keyword::KwTo,
            Keyword::KwTrue,
            Keyword::KwTry,
            Keyword::KwType,
        ],
        b'u' => &[Keyword::KwUnite, Keyword::KwUnwrap],
        b'v' => &[Keyword::KwVar, Keyword::KwVariant],
        b'w' => &[Keyword::KwWhen, Keyword::KwWhile, Keyword::KwWrap],
        _ => &[],
    }
}

// The first of some keywords with these letters.
fn find_among(keywords: &[Keyword], text: &[u8]) -> Option<Keyword>
    ensures { result ≡ found_among keywords.now text.now }
{
    keywords.iter().copied().find(|k| k.letters() == text)
}

// The keyword with these letters. Only those with its first letter are compared with it.
#[tactic(auto, using(crate::proofs::Keywords::first_letters))]
fn find_keyword(text: &[u8]) -> Option<Keyword>
    ensures { result ≡ keyword_of text.now }
{
    match text {
        [] => None,
        [first, ..] => {
            let found = find_among(starting_with(*first), text);
            found
        }
    }
}
