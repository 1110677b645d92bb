//! The token ahead, keywords and signs, names and parts.
ghost use Rattle.std.specs.Prelude.{◌≡◌, None, Some, IfOk};
ghost use Rattle.herm_readers.specs.Reader.{ahead};
ghost use Rattle.herm_readers.specs.Combinators.{one, passes, skip};
ghost use Rattle.herm_syntax.specs.Symbols.{Key, Sign, is, is_keyword};
ghost use Rattle.herm_syntax.specs.ReadExpressions.{read_name, read_part, pick_constant, is_constant};
ghost use Rattle.herm_syntax.specs.View.{name_view, literal_view};
ghost use Rattle.herm_parser.specs.Gives.{kinds, Gives};
ghost use Rattle.herm_parser.specs.Along.{past_token, past_name, past_literal};

use crate::stop::Stop;
use herm_alphabet::{Keyword, Mark, Token, TokenKind};
use herm_base::{Name, Word};
use herm_syntax::Literal;
use std::alloc::Global;

fn is_key(kind: &TokenKind, keyword: Keyword) -> bool
    ensures { result ≡ is (Key keyword) kind.now }
{
    match kind {
        TokenKind::Key(found) => *found == keyword,
        _ => false,
    }
}

fn is_sign(kind: &TokenKind, sign: Mark) -> bool
    ensures { result ≡ is (Sign sign) kind.now }
{
    match kind {
        TokenKind::Sign(found) => *found == sign,
        _ => false,
    }
}

/// Whether the token ahead is this keyword.
pub fn key_ahead(tokens: &[Token], keyword: Keyword) -> bool
    ensures { result ≡ passes (is (Key keyword)) (ahead (kinds tokens.now) None) }
{
    match tokens {
        [first, ..] => is_key(&first.kind, keyword),
        [] => false,
    }
}

/// Whether the token ahead is this sign.
pub fn sign_ahead(tokens: &[Token], sign: Mark) -> bool
    ensures { result ≡ passes (is (Sign sign)) (ahead (kinds tokens.now) None) }
{
    match tokens {
        [first, ..] => is_sign(&first.kind, sign),
        [] => false,
    }
}

/// The tokens behind this keyword.
pub fn key(tokens: &[Token], keyword: Keyword) -> Result<&[Token], Stop>
    ensures read { Gives (λ x. tt) (λ x. x.now) result (skip (is (Key keyword)) (kinds tokens.now)) }
    ensures along { IfOk result (λ x. past_token tokens.now ≡ Some x.now) }
{
    match tokens {
        [first, rest @ ..] => {
            if is_key(&first.kind, keyword) {
                return Ok(rest);
            }
            Err(Stop::Syntax(tokens.len()))
        }
        [] => Err(Stop::Syntax(0)),
    }
}

/// The tokens behind this sign.
pub fn sign(tokens: &[Token], sign: Mark) -> Result<&[Token], Stop>
    ensures read { Gives (λ x. tt) (λ x. x.now) result (skip (is (Sign sign)) (kinds tokens.now)) }
    ensures along { IfOk result (λ x. past_token tokens.now ≡ Some x.now) }
{
    match tokens {
        [first, rest @ ..] => {
            if is_sign(&first.kind, sign) {
                return Ok(rest);
            }
            Err(Stop::Syntax(tokens.len()))
        }
        [] => Err(Stop::Syntax(0)),
    }
}

fn is_keyword(text: &Word) -> bool
    ensures { result ≡ is_keyword text.now }
{
    Keyword::from_letters(text.bytes()).is_some()
}

/// A name, which is no keyword.
pub fn name(alloc: Global, tokens: &[Token]) -> Result<(Name, &[Token]), Stop>
    ensures read { Gives (λ x. name_view x.0) (λ x. x.1.now) result (read_name (kinds tokens.now)) }
    ensures along { IfOk result (λ x. past_name x.0 tokens.now ≡ Some x.1.now) }
{
    match tokens {
        [first, rest @ ..] => match &first.kind {
            TokenKind::Ident(text) => {
                if is_keyword(text) {
                    return Err(Stop::Syntax(tokens.len()));
                }
                let text = text.clone()?;
                let span = first.span;
                Ok((Name { text, span }, rest))
            }
            _ => Err(Stop::Syntax(tokens.len())),
        },
        [] => Err(Stop::Syntax(0)),
    }
}

/// A part: a name, or a keyword's letters.
pub fn part(alloc: Global, tokens: &[Token]) -> Result<(Name, &[Token]), Stop>
    ensures read { Gives (λ x. name_view x.0) (λ x. x.1.now) result (read_part (kinds tokens.now)) }
    ensures along { IfOk result (λ x. past_name x.0 tokens.now ≡ Some x.1.now) }
{
    match tokens {
        [first, rest @ ..] => match &first.kind {
            TokenKind::Key(keyword) => {
                let text = Word::of(alloc, keyword.letters())?;
                let span = first.span;
                Ok((Name { text, span }, rest))
            }
            TokenKind::Ident(text) => {
                if is_keyword(text) {
                    return Err(Stop::Syntax(tokens.len()));
                }
                let text = text.clone()?;
                let span = first.span;
                Ok((Name { text, span }, rest))
            }
            _ => Err(Stop::Syntax(tokens.len())),
        },
        [] => Err(Stop::Syntax(0)),
    }
}

/// Whether the token ahead is a literal of one token.
pub fn is_constant_ahead(tokens: &[Token]) -> bool
    ensures { result ≡ passes is_constant (ahead (kinds tokens.now) None) }
{
    match tokens {
        [first, ..] => matches!(
            &first.kind,
            TokenKind::Int(_)
                | TokenKind::Text(_)
                | TokenKind::Key(Keyword::KwTrue)
                | TokenKind::Key(Keyword::KwFalse)
        ),
        [] => false,
    }
}

/// A literal of one token: an integer, a string or a boolean.
pub fn constant(alloc: Global, tokens: &[Token]) -> Result<(Literal, &[Token]), Stop>
    ensures read { Gives (λ x. literal_view x.0) (λ x. x.1.now) result (one pick_constant (kinds tokens.now)) }
    ensures along { IfOk result (λ x. past_literal x.0 tokens.now ≡ Some x.1.now) }
{
    match tokens {
        [first, rest @ ..] => match &first.kind {
            TokenKind::Int(number) => Ok((Literal::Int(*number), rest)),
            TokenKind::Text(text) => Ok((Literal::Text(text.clone()?), rest)),
            TokenKind::Key(Keyword::KwTrue) => Ok((Literal::Bool(true), rest)),
            TokenKind::Key(Keyword::KwFalse) => Ok((Literal::Bool(false), rest)),
            _ => Err(Stop::Syntax(tokens.len())),
        },
        [] => Err(Stop::Syntax(0)),
    }
}
