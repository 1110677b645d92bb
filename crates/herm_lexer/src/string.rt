//! Strings.
ghost use Rattle.std.specs.Prelude.{◌≡◌, false, length, IfOk};
ghost use Rattle.std.specs.Option.{option_map};
ghost use Rattle.herm_lexer.specs.Reading.{Gives, string_at, text_of_content, content_of, content_byte, unescaped};

use crate::piece::{Piece, Stop};
use crate::run::{Run, run_length};
use herm_alphabet::TokenKind;
use herm_base::Word;
use std::alloc::{AllocError, Global};

/// The string at the front, of at most 4,096 bytes of content. Its first `"` is not among the bytes.
#[tactic(auto, unfolding(crate::specs::Reading::string_at))]
pub fn string(alloc: Global, bytes: &[u8]) -> Result<(Piece, usize), Stop>
    ensures { Gives result (string_at bytes.now) }
{
    let length = run_length(Run::Inside, bytes);
    if length == bytes.len() {
        return Err(Stop::Token);
    }
    let end = bytes[length];
    if end == b'"' {
        return closed_string(alloc, &bytes[..length]);
    }
    if end == b'\n' {
        return Err(Stop::Token);
    }
    Err(Stop::Byte(length + 1))
}

// The string with these bytes between its two `"`.
fn closed_string(alloc: Global, inside: &[u8]) -> Result<(Piece, usize), Stop>
    ensures { Gives result (text_of_content (length inside.now) (content_of false inside.now)) }
{
    match content(alloc, inside)? {
        None => Err(Stop::Token),
        Some(content) => {
            if 4096 < content.len() {
                return Err(Stop::TooLong);
            }
            let word = Word::from_vec(content);
            Ok((Piece::Token(TokenKind::Text(word)), inside.len() + 2))
        }
    }
}

// The content that bytes between two `"` spell, if they do.
fn content(alloc: Global, inside: &[u8]) -> Result<Option<Vec<u8>>, AllocError>
    ensures { IfOk result (λ found. option_map (λ v. v.items) found ≡ content_of false inside.now) }
{
    let mut content = Vec::new(alloc);
    let mut escaping = false;
    for b in inside {
        if !escaping && *b == b'\\' {
            escaping = true;
        } else {
            match content_byte(escaping, *b) {
                Some(byte) => content.push(byte)?,
                None => return Ok(None),
            }
            escaping = false;
        }
    }
    if escaping {
        return Ok(None);
    }
    Ok(Some(content))
}

// The byte of content that a byte stands for, behind a `\` or not.
fn content_byte(escaping: bool, b: u8) -> Option<u8>
    ensures { result ≡ content_byte escaping b }
{
    if escaping {
        return unescaped(b);
    }
    if b >= b' ' && b <= b'~' {
        Some(b)
    } else {
        None
    }
}

// What a byte behind a `\` stands for.
fn unescaped(b: u8) -> Option<u8>
    ensures { result ≡ unescaped b }
{
    match b {
        b'n' => Some(b'\n'),
        b'"' => Some(b'"'),
        b'\\' => Some(b'\\'),
        _ => None,
    }
}
