//! The tokens of a source file.
ghost use Rattle.std.specs.Prelude.{◌≡◌, ◌+◌, ◌++◌, ◌<◌, ◌≤◌, ◌^◌, ◌⊎◌, [], OnOk, IfOk, IfErr, drop, length, vec_len};
ghost use Rattle.std.specs.List.{AllByRecursion};
ghost use Rattle.herm_lexer.specs.Spelling.{HasTokens, ReadTo, IsOrdinary, token_at};
ghost use Rattle.herm_lexer.specs.Faults.{HasFault, IsStoppedBy};
ghost use Rattle.herm_lexer.specs.Reading.{Gives, IsWithin, IsFewFrom, piece_at, placed};
ghost use Rattle.herm_lexer.specs.declared.fault.LexFault.TheVariants.{Memory};

use crate::bytes::bytes_from;
use crate::fault::LexFault;
use crate::piece::{Piece, Stop, read_piece};
use herm_alphabet::Token;
use herm_base::Span;
use std::alloc::Global;

// The most bytes that are read of a file.
const MOST_BYTES: usize = 1_048_576;

/// The tokens of a source file, or its first fault from the left, with the place of the fault in bytes.
/// A file of more than 1,048,576 bytes is read up to there, and is too long if no other fault stands before.
pub fn lex(alloc: Global, bytes: &[u8]) -> Result<Vec<Token>, LexFault>
    ensures tokens { IfOk result (λ v. HasTokens bytes.now v.items) }
    ensures fault { IfErr result (λ fault. (fault ≡ Memory) ⊎ HasFault bytes.now fault) }

    // What a parser needs: no other name has a keyword's letters, and the tokens can be counted.
    ensures ordinary { IfOk result (λ v. AllByRecursion (λ t. IsOrdinary t.kind) v.items) }
    ensures count { IfOk result (λ v. vec_len v < 2 ^ 32) }
{
    if MOST_BYTES < bytes.len() {
        return Err(long_file_fault(alloc, bytes));
    }
    short_file_tokens(alloc, bytes)
}

// The fault of a file of too many bytes.
fn long_file_fault(alloc: Global, bytes: &[u8]) -> LexFault
    requires { 1048576 < length bytes.now }
    ensures { (result ≡ Memory) ⊎ HasFault bytes.now result }
{
    let front = &bytes[..MOST_BYTES];
    match tokens_of(alloc, front) {
        Ok(_) => return LexFault::TooLong(MOST_BYTES as u32),
        Err(fault) => return fault,
    }
}

// The tokens of a file that is short enough.
fn short_file_tokens(alloc: Global, bytes: &[u8]) -> Result<Vec<Token>, LexFault>
    requires { length bytes.now ≤ 1048576 }
    ensures tokens { IfOk result (λ v. HasTokens bytes.now v.items) }
    ensures fault { IfErr result (λ fault. (fault ≡ Memory) ⊎ HasFault bytes.now fault) }
    ensures ordinary { IfOk result (λ v. AllByRecursion (λ t. IsOrdinary t.kind) v.items) }
    ensures count { IfOk result (λ v. vec_len v < 2 ^ 32) }
{
    match tokens_of(alloc, bytes) {
        Ok(tokens) => Ok(tokens),
        Err(fault) => Err(fault),
    }
}

// The tokens of bytes that are few enough.
fn tokens_of(alloc: Global, bytes: &[u8]) -> Result<Vec<Token>, LexFault>
    requires { length bytes.now ≤ 1048576 }
    ensures read { IfOk result (λ v. ReadTo bytes.now [] v.items) }
    ensures fault { IfErr result (λ fault. (fault ≡ Memory) ⊎ IsStoppedBy bytes.now fault) }
{
    let mut tokens = Vec::new(alloc);
    let mut rest = bytes;
    while !rest.is_empty() {
        let length = add_piece(alloc, bytes, rest, &mut tokens)?;
        rest = bytes_from(rest, length);
    }
    Ok(tokens)
}

// Reads a piece more, and says how many bytes it has.
fn add_piece(
    alloc: Global,
    bytes: &[u8],
    rest: &[u8],
    tokens: &mut Vec<Token>,
) -> Result<usize, LexFault>
    requires some { 0 < length rest.now }
    requires short { length bytes.now ≤ 1048576 }
    requires read { ReadTo bytes.now rest.now tokens.old.items }
    ensures some { IfOk result (λ n. 0 < n) }
    ensures within { IfOk result (λ n. n ≤ length rest.now) }
    ensures read { IfOk result (λ n. ReadTo bytes.now (drop n rest.now) tokens.new.items) }
    ensures fault { IfErr result (λ fault. (fault ≡ Memory) ⊎ IsStoppedBy bytes.now fault) }
{
    let start = bytes.len() - rest.len();
    match first_piece(alloc, rest) {
        Ok(found) => {
            let (piece, length) = found;
            add_token(tokens, start, piece, length)?;
            Ok(length)
        }
        Err(stop) => Err(fault_at(start, stop)),
    }
}

// Adds the token that a piece is, if it is one.
fn add_token(
    tokens: &mut Vec<Token>,
    start: usize,
    piece: Piece,
    length: usize,
) -> Result<(), LexFault>
    requires { start + length < 2 ^ 32 }
    ensures ok { OnOk result (tokens.new.items ≡ tokens.old.items ++ token_at start piece length) }
    ensures err { IfErr result (λ fault. fault ≡ Memory) }
{
    match piece {
        Piece::Blank => Ok(()),
        Piece::Comment => Ok(()),
        Piece::Token(kind) => {
            let span = Span {
                start: start as u32,
                end: (start + length) as u32,
            };
            match tokens.push(Token { kind, span }) {
                Ok(()) => Ok(()),
                Err(_) => Err(LexFault::Memory),
            }
        }
    }
}

// The piece at the front, which has some of the bytes.
fn first_piece(alloc: Global, bytes: &[u8]) -> Result<(Piece, usize), Stop>
    requires { 0 < length bytes.now }
    ensures exact { Gives result (piece_at bytes.now) }
    ensures within { IsWithin bytes.now result }
{
    read_piece(alloc, bytes)
}

// The fault of a file, of which the bytes that were read begin at `start`.
fn fault_at(start: usize, stop: Stop) -> LexFault
    requires { IsFewFrom start stop }
    ensures { result ≡ placed start stop }
{
    match stop {
        Stop::Byte(offset) => LexFault::Byte((start + offset) as u32),
        Stop::Token => LexFault::Token(start as u32),
        Stop::TooLong => LexFault::TooLong(start as u32),
        Stop::Memory => LexFault::Memory,
    }
}
