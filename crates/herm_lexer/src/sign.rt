//! Signs.
ghost use Rattle.std.specs.Prelude.{◌≡◌};
ghost use Rattle.herm_lexer.specs.Reading.{Gives, sign_at, double_sign, single_sign};

use crate::bytes::is_allowed;
use crate::piece::{Piece, Stop};
use herm_alphabet::{Mark, TokenKind};

/// The sign that begins with these two bytes, or that is the first of them.
#[tactic(auto, unfolding(crate::specs::Reading::sign_at))]
pub fn sign(first: u8, second: u8) -> Result<(Piece, usize), Stop>
    ensures { Gives result (sign_at first second) }
{
    if let Some(mark) = double_sign(first, second) {
        return Ok((Piece::Token(TokenKind::Sign(mark)), 2));
    }
    if let Some(mark) = single_sign(first) {
        return Ok((Piece::Token(TokenKind::Sign(mark)), 1));
    }
    if is_allowed(first) {
        return Err(Stop::Token);
    }
    Err(Stop::Byte(0))
}

// The sign of two characters.
fn double_sign(first: u8, second: u8) -> Option<Mark>
    ensures { result ≡ double_sign first second }
{
    match (first, second) {
        (b':', b'=') => Some(Mark::Becomes),
        (b'<', b'>') => Some(Mark::NotEqual),
        (b'<', b'=') => Some(Mark::LessEqual),
        (b'>', b'=') => Some(Mark::GreaterEqual),
        _ => None,
    }
}

// The sign of one character.
#[tactic(auto, unfolding(crate::specs::Reading::single_sign))]
fn single_sign(b: u8) -> Option<Mark>
    ensures { result ≡ single_sign b }
{
    match b {
        b'(' => Some(Mark::ParenOpen),
        b')' => Some(Mark::ParenClose),
        b'{' => Some(Mark::BraceOpen),
        b'}' => Some(Mark::BraceClose),
        b'[' => Some(Mark::BracketOpen),
        b']' => Some(Mark::BracketClose),
        b',' => Some(Mark::Comma),
        b';' => Some(Mark::Semicolon),
        b':' => Some(Mark::Colon),
        b'.' => Some(Mark::Dot),
        b'#' => Some(Mark::Hash),
        b'=' => Some(Mark::Equal),
        b'<' => Some(Mark::Less),
        b'>' => Some(Mark::Greater),
        b'+' => Some(Mark::Plus),
        b'-' => Some(Mark::Minus),
        b'*' => Some(Mark::Star),
        b'&' => Some(Mark::Ampersand),
        _ => None,
    }
}
