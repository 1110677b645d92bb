//! The tokens of a source file as its modules.
ghost use Rattle.std.specs.Prelude.{◌≡◌, drop, IfOk, IfErr};
ghost use Rattle.herm_syntax.specs.laws.GrammarLaws.{IsWithinRoom};
ghost use Rattle.herm_parser.specs.Gives.{kinds};
ghost use Rattle.herm_parser.specs.BracketDepth.{most_brackets};
ghost use Rattle.herm_parser.specs.Parsing.{IsParsed};
ghost use Rattle.herm_parser.specs.SyntaxFaults.{IsFault};
ghost use Rattle.herm_parser.specs.TokenPlaces.{place_of, end_first, start_of};

use crate::brackets::{most_brackets, too_deep};
use crate::fault::ParseFault;
use crate::modules::modules;
use crate::stop::Stop;
use herm_alphabet::Token;
use herm_syntax::Module;
use std::alloc::Global;

/// The tokens from an index on.
fn behind(tokens: &[Token], index: usize) -> &[Token]
    ensures { result.now ≡ drop index tokens.now }
{
    if index < tokens.len() {
        return tokens.split_at(index).1;
    }
    &[]
}

fn start_of(tokens: &[Token]) -> u32
    ensures { result ≡ start_of tokens.now }
{
    match tokens {
        [first, ..] => first.span.start,
        [] => 0,
    }
}

fn end_first(tokens: &[Token]) -> u32
    ensures { result ≡ end_first tokens.now }
{
    match tokens {
        [first, ..] => first.span.end,
        [] => 0,
    }
}

/// The place in bytes of the token from which on so many are left, or the end of the last token.
fn place_of(tokens: &[Token], left: usize) -> u32
    ensures { result ≡ place_of tokens.now left }
{
    if left == 0 {
        return end_first(behind(tokens, tokens.len().saturating_sub(1)));
    }
    start_of(behind(tokens, tokens.len().saturating_sub(left)))
}

/// The modules of tokens without a bracket too many.
#[tactic(auto, using(crate::proofs::Whole::parsed, crate::proofs::Whole::misspelled))]
fn parse_within(alloc: Global, tokens: &[Token]) -> Result<Vec<Module>, ParseFault>
    requires { IsWithinRoom most_brackets (kinds tokens.now) }
    ensures parsed { IfOk result (λ v. IsParsed tokens.now v.items) }
    ensures fault { IfErr result (λ fault. IsFault tokens.now fault) }
{
    match modules(alloc, most_brackets() + 1, tokens) {
        Ok(found) => return Ok(found.0),
        Err(Stop::Syntax(left)) => return Err(ParseFault::Syntax(place_of(tokens, left))),
        Err(Stop::Memory) => return Err(ParseFault::Memory),
    }
}

/// The modules that the tokens of a source file spell. Statements are numbered from 1 within each process, and names and statements
/// have the places of their tokens.
///
/// A fault has its place in bytes: `Nesting` at the first bracket that is open too many, else `Syntax` at the first token with
/// which no file goes on, or at the end of the last token. More statements in a process than can be numbered count as want of memory.
#[tactic(auto, using(crate::proofs::Whole::nested))]
pub fn parse(alloc: Global, tokens: &[Token]) -> Result<Vec<Module>, ParseFault>
    ensures parsed { IfOk result (λ v. IsParsed tokens.now v.items) }
    ensures fault { IfErr result (λ fault. IsFault tokens.now fault) }
{
    match too_deep(tokens) {
        Some(left) => return Err(ParseFault::Nesting(place_of(tokens, left))),
        None => {
            return parse_within(alloc, tokens);
        }
    }
}
