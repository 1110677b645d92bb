//! Integers.
ghost use Rattle.std.specs.Prelude.{◌≡◌};
ghost use Rattle.herm_lexer.specs.Reading.{Gives, number_at, integer, value_after};

use crate::bytes::{byte_at, is_name_byte};
use crate::piece::{Piece, Stop};
use crate::run::{Run, run_length};
use herm_alphabet::TokenKind;

/// The integer at the front, of at most 2^63 - 1.
#[tactic(auto, unfolding(crate::specs::Reading::number_at))]
pub fn number(bytes: &[u8]) -> Result<(Piece, usize), Stop>
    ensures { Gives result (number_at bytes.now) }
{
    let length = run_length(Run::Digits, bytes);
    if (byte_at(bytes, 0) == b'0' && 1 < length) || is_name_byte(byte_at(bytes, length)) {
        return Err(Stop::Token);
    }
    match value(&bytes[..length]) {
        Some(n) => Ok((Piece::Token(TokenKind::Int(n)), length)),
        None => Err(Stop::TooLong),
    }
}

// The number that the digits write, if it is at most 2^63 - 1.
fn value(digits: &[u8]) -> Option<i64>
    ensures { result ≡ integer (value_after 0 digits.now) }
{
    // Ten times a greater number is above the limit.
    const MOST_BEFORE_A_DIGIT: u64 = 922_337_203_685_477_580;
    let mut n: u64 = 0;
    for b in digits {
        if MOST_BEFORE_A_DIGIT < n {
            return None;
        }
        n = n * 10 + u64::from(b.saturating_sub(b'0'));
    }
    i64::try_from(n).ok()
}
