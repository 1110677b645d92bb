//! Keywords and other names.
ghost use Rattle.std.specs.Prelude.{◌≡◌};
ghost use Rattle.herm_lexer.specs.Reading.{Gives, name_at};

use crate::piece::{Piece, Stop};
use crate::run::{Run, run_length};
use herm_alphabet::{Keyword, TokenKind};
use herm_base::Word;
use std::alloc::Global;

/// The name at the front, of at most 64 bytes.
#[tactic(auto, unfolding(crate::specs::Reading::name_at))]
pub fn name(alloc: Global, bytes: &[u8]) -> Result<(Piece, usize), Stop>
    ensures { Gives result (name_at bytes.now) }
{
    let length = run_length(Run::Name, bytes);
    if 64 < length {
        return Err(Stop::TooLong);
    }
    let text = &bytes[..length];
    match Keyword::from_letters(text) {
        Some(keyword) => Ok((Piece::Token(TokenKind::Key(keyword)), length)),
        None => {
            let word = Word::of(alloc, text)?;
            Ok((Piece::Token(TokenKind::Ident(word)), length))
        }
    }
}
