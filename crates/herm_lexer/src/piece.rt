//! The piece at the front of a source file's bytes: white space, a comment or a token.
ghost use Rattle.std.specs.Prelude.{◌≡◌, ◌<◌, length};
ghost use Rattle.herm_lexer.specs.Reading.{Gives, piece_at};
ghost use Rattle.herm_lexer.specs.declared.piece.Stop.TheVariants.{Memory};

use crate::bytes::{byte_at, bytes_from, is_blank};
use crate::name::name;
use crate::number::number;
use crate::run::{Run, run_length};
use crate::sign::sign;
use crate::string::string;
use herm_alphabet::TokenKind;
use std::alloc::{AllocError, AllocFailed, Global};

/// A piece of a file.
#[derive(Drop)]
pub enum Piece {
    Blank,
    Comment,
    Token(TokenKind),
}

/// Why no piece stands at the front of the bytes: a byte that no file has, so many bytes further, no token,
/// a token beyond its limit, or want of memory.
#[derive(Clone, Copy)]
pub enum Stop {
    Byte(usize),
    Token,
    TooLong,
    Memory,
}

impl From<AllocError> for Stop {
    ghost from_gives = { λ _ stop. stop ≡ Memory };

    fn from(_: AllocError) -> Stop {
        Stop::Memory
    }
}

impl<T: Drop> From<AllocFailed<T>> for Stop {
    ghost from_gives = { λ _ stop. stop ≡ Memory };

    fn from(_: AllocFailed<T>) -> Stop {
        Stop::Memory
    }
}

/// The piece at the front, and how many bytes it has.
#[tactic(auto, unfolding(crate::specs::Reading::piece_at))]
pub fn read_piece(alloc: Global, bytes: &[u8]) -> Result<(Piece, usize), Stop>
    requires { 0 < length bytes.now }
    ensures { Gives result (piece_at bytes.now) }
{
    let first = byte_at(bytes, 0);
    let second = byte_at(bytes, 1);
    if is_blank(first) {
        return Ok((Piece::Blank, 1));
    }
    if first.is_ascii_alphabetic() {
        return name(alloc, bytes);
    }
    if first.is_ascii_digit() {
        return number(bytes);
    }
    if first == b'"' {
        return string(alloc, bytes_from(bytes, 1));
    }
    if first == b'-' && second == b'-' {
        let length = run_length(Run::Line, bytes_from(bytes, 2));
        return Ok((Piece::Comment, length + 2));
    }
    sign(first, second)
}
