//! What statements are made of: paths with a keyword between, keys and arguments, and the semicolon.
ghost use Rattle.std.specs.Prelude.{◌≡◌, map, None, Some, IfOk};
ghost use Rattle.herm_readers.specs.Reader.{ahead};
ghost use Rattle.herm_readers.specs.Combinators.{passes, skip, mapped, terminated, preceded, sequence, separated, many};
ghost use Rattle.herm_alphabet.specs.declared.keyword.Keyword.TheVariants.{KwFrom};
ghost use Rattle.herm_alphabet.specs.declared.sign.Mark.TheVariants.{BracketOpen, BracketClose};
ghost use Rattle.herm_syntax.specs.Symbols.{Key, Sign, is, comma, paren_close, semicolon};
ghost use Rattle.herm_syntax.specs.ReadExpressions.{read_name, read_path, read_component_path, read_atom};
ghost use Rattle.herm_syntax.specs.Words.{is_transfer, is_touch, is_find};
ghost use Rattle.herm_syntax.specs.ReadStatements.{is_plain, listed, plain_of, read_two_paths, read_one_path, read_keyed, read_plain, read_end};
ghost use Rattle.herm_syntax.specs.View.{name_view, path_form_view, atom_view, stmt_form_view};
ghost use Rattle.herm_parser.specs.Along.{past_name, past_token, past_list, past_each, past_behind, past_atom, past_path};
ghost use Rattle.herm_parser.specs.Walk.{past_end, ended, past_pair, past_path_name, past_atoms, past_keyed};
ghost use Rattle.herm_parser.specs.Gives.{kinds, Gives};

use crate::paths::{atom, component_path, path, with_first};
use crate::stop::Stop;
use crate::tokens::{key, key_ahead, name, sign, sign_ahead};
use herm_alphabet::{Keyword, Mark, Token, TokenKind};
use herm_base::Name;
use herm_syntax::{Atom, PathForm, StmtForm};
use std::alloc::Global;

/// The semicolon at the end of a statement: where it ends in the text, and the tokens behind it.
pub fn semicolon(tokens: &[Token]) -> Result<(u32, &[Token]), Stop>
    ensures read { Gives (λ x. tt) (λ x. x.1.now) result (skip (is semicolon) (kinds tokens.now)) }
    ensures along { IfOk result (λ x. (n : _) → past_end n tokens.now ≡ Some (n, (x.0, x.1.now))) }
{
    match tokens {
        [first, rest @ ..] => match first.kind {
            TokenKind::Sign(Mark::Semicolon) => Ok((first.span.end, rest)),
            _ => Err(Stop::Syntax(tokens.len())),
        },
        [] => Err(Stop::Syntax(0)),
    }
}

/// Two paths with a keyword between, and the semicolon.
pub fn pair(
    alloc: Global,
    between: Keyword,
    tokens: &[Token],
) -> Result<(PathForm, PathForm, u32, &[Token]), Stop>
    ensures read { Gives (λ x. (path_form_view x.0, path_form_view x.1)) (λ x. x.3.now) result
        (sequence read_path (preceded (is (Key between)) (terminated (is semicolon) read_path)) (kinds tokens.now)) }
    ensures along { IfOk result (λ x. (n : _) → ended n (past_pair x.0 x.1 tokens.now) ≡ Some (n, (x.2, x.3.now))) }
{
    let (first, rest) = path(alloc, tokens)?;
    let rest = key(rest, between)?;
    let (second, rest) = path(alloc, rest)?;
    let (end, rest) = semicolon(rest)?;
    Ok((first, second, end, rest))
}

/// The same where the first path is one to a component.
pub fn component_pair(
    alloc: Global,
    between: Keyword,
    tokens: &[Token],
) -> Result<(PathForm, PathForm, u32, &[Token]), Stop>
    ensures read { Gives (λ x. (path_form_view x.0, path_form_view x.1)) (λ x. x.3.now) result
        (sequence read_component_path (preceded (is (Key between)) (terminated (is semicolon) read_path)) (kinds tokens.now)) }
    ensures along { IfOk result (λ x. (n : _) → ended n (past_pair x.0 x.1 tokens.now) ≡ Some (n, (x.2, x.3.now))) }
{
    let (first, rest) = component_path(alloc, tokens)?;
    let rest = key(rest, between)?;
    let (second, rest) = path(alloc, rest)?;
    let (end, rest) = semicolon(rest)?;
    Ok((first, second, end, rest))
}

/// A path and the semicolon.
pub fn one_path(alloc: Global, tokens: &[Token]) -> Result<(PathForm, u32, &[Token]), Stop>
    ensures read { Gives (λ x. path_form_view x.0) (λ x. x.2.now) result (terminated (is semicolon) read_path (kinds tokens.now)) }
    ensures along { IfOk result (λ x. (n : _) → ended n (past_path x.0 tokens.now) ≡ Some (n, (x.1, x.2.now))) }
{
    let (path, rest) = path(alloc, tokens)?;
    let (end, rest) = semicolon(rest)?;
    Ok((path, end, rest))
}

/// The same where the path is one to a component.
pub fn one_component_path(
    alloc: Global,
    tokens: &[Token],
) -> Result<(PathForm, u32, &[Token]), Stop>
    ensures read { Gives (λ x. path_form_view x.0) (λ x. x.2.now) result (terminated (is semicolon) read_component_path (kinds tokens.now)) }
    ensures along { IfOk result (λ x. (n : _) → ended n (past_path x.0 tokens.now) ≡ Some (n, (x.1, x.2.now))) }
{
    let (path, rest) = component_path(alloc, tokens)?;
    let (end, rest) = semicolon(rest)?;
    Ok((path, end, rest))
}

/// A name and the semicolon.
pub fn one_name(alloc: Global, tokens: &[Token]) -> Result<(Name, u32, &[Token]), Stop>
    ensures read { Gives (λ x. name_view x.0) (λ x. x.2.now) result (terminated (is semicolon) read_name (kinds tokens.now)) }
    ensures along { IfOk result (λ x. (n : _) → ended n (past_name x.0 tokens.now) ≡ Some (n, (x.1, x.2.now))) }
{
    let (name, rest) = name(alloc, tokens)?;
    let (end, rest) = semicolon(rest)?;
    Ok((name, end, rest))
}

/// A comma, and then a key or an argument.
fn comma_atom(alloc: Global, tokens: &[Token]) -> Result<(Atom, &[Token]), Stop>
    ensures read { Gives (λ x. atom_view x.0) (λ x. x.1.now) result (preceded (is comma) read_atom (kinds tokens.now)) }
    ensures along { IfOk result (λ x. past_behind past_atom x.0 tokens.now ≡ Some x.1.now) }
{
    let rest = sign(tokens, Mark::Comma)?;
    atom(alloc, rest)
}

/// Keys or arguments, each behind a comma.
fn atoms_behind(alloc: Global, tokens: &[Token]) -> Result<(Vec<Atom>, &[Token]), Stop>
    ensures read { Gives (λ x. map atom_view x.0.items) (λ x. x.1.now) result (many (is comma) (preceded (is comma) read_atom) (kinds tokens.now)) }
    ensures along { IfOk result (λ x. past_each (past_behind past_atom) x.0.items tokens.now ≡ Some x.1.now) }
{
    let mut found = Vec::new(alloc);
    let mut rest = tokens;
    'list: while sign_ahead(rest, Mark::Comma) {
        let (item, behind) = comma_atom(alloc, rest)?;
        found.push(item)?;
        rest = behind;
    }
    Ok((found, rest))
}

/// Keys or arguments with commas, one at least.
fn atoms(alloc: Global, tokens: &[Token]) -> Result<(Vec<Atom>, &[Token]), Stop>
    ensures read { Gives (λ x. map atom_view x.0.items) (λ x. x.1.now) result (separated (is comma) read_atom (kinds tokens.now)) }
    ensures along { IfOk result (λ x. past_list past_atom x.0.items tokens.now ≡ Some x.1.now) }
{
    let (first, rest) = atom(alloc, tokens)?;
    let (others, rest) = atoms_behind(alloc, rest)?;
    Ok((with_first(alloc, first, others)?, rest))
}

/// Arguments with commas, none where the parenthesis closes at once.
pub fn arguments(alloc: Global, tokens: &[Token]) -> Result<(Vec<Atom>, &[Token]), Stop>
    ensures read { Gives (λ x. map atom_view x.0.items) (λ x. x.1.now) result (listed paren_close read_atom (kinds tokens.now)) }
    ensures along { IfOk result (λ x. past_list past_atom x.0.items tokens.now ≡ Some x.1.now) }
{
    if sign_ahead(tokens, Mark::ParenClose) {
        return Ok((Vec::new(alloc), tokens));
    }
    let (found, rest) = atoms(alloc, tokens)?;
    Ok((found, rest))
}

/// The row, the table and the keys in brackets of `remove` and `get`, and the semicolon.
pub fn keyed(
    alloc: Global,
    tokens: &[Token],
) -> Result<(PathForm, PathForm, Vec<Atom>, u32, &[Token]), Stop>
    ensures read { Gives (λ x. (path_form_view x.0, (path_form_view x.1, (map atom_view x.2.items, tt)))) (λ x. x.4.now) result
        (sequence read_path (preceded (is (Key KwFrom)) (sequence read_path (preceded (is (Sign BracketOpen)) (sequence (separated (is comma) read_atom) (preceded (is (Sign BracketClose)) read_end))))) (kinds tokens.now)) }
    ensures along { IfOk result (λ x. (n : _) → ended n (past_keyed x.0 x.1 x.2.items tokens.now) ≡ Some (n, (x.3, x.4.now))) }
{
    let (row, rest) = path(alloc, tokens)?;
    let rest = key(rest, Keyword::KwFrom)?;
    let (table, rest) = path(alloc, rest)?;
    let rest = sign(rest, Mark::BracketOpen)?;
    let (keys, rest) = atoms(alloc, rest)?;
    let rest = sign(rest, Mark::BracketClose)?;
    let (end, rest) = semicolon(rest)?;
    Ok((row, table, keys, end, rest))
}
