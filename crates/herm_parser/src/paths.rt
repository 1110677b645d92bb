//! Paths, literals, keys and arguments.
ghost use Rattle.std.specs.Prelude.{◌≡◌, ◌∷◌, map, IfOk, Some};
ghost use Rattle.herm_readers.specs.Combinators.{mapped, preceded, many, separated};
ghost use Rattle.herm_syntax.specs.Symbols.{Sign, is};
ghost use Rattle.herm_syntax.specs.ReadExpressions.{read_part, read_path, read_component_path, behind_name, named, read_atom};
ghost use Rattle.herm_syntax.specs.View.{name_view, path_form_view, atom_view};
ghost use Rattle.herm_parser.specs.Along.{past_name, past_behind, past_each, past_list, past_path, past_atom};
ghost use Rattle.herm_parser.specs.Gives.{kinds, Gives};

use crate::stop::Stop;
use crate::tokens::{constant, is_constant_ahead, name, part, sign, sign_ahead};
use herm_alphabet::{Mark, Token};
use herm_base::Name;
use herm_syntax::{Atom, Literal, PathForm};
use std::alloc::{AllocError, Global};

/// A first item, and those behind it.
pub fn with_first<T: Drop>(
    alloc: Global,
    first: T,
    mut behind: Vec<T>,
) -> Result<Vec<T>, AllocError>
    ensures { IfOk result (λ v. v.items ≡ first ∷ behind.items) }
{
    let mut all = Vec::with_capacity(alloc, behind.len() + 1)?;
    all.push(first)?;
    all.append(&mut behind)?;
    Ok(all)
}

/// A sign, and then a part.
fn signed_part(alloc: Global, before: Mark, tokens: &[Token]) -> Result<(Name, &[Token]), Stop>
    ensures read { Gives (λ x. name_view x.0) (λ x. x.1.now) result (preceded (is (Sign before)) read_part (kinds tokens.now)) }
    ensures along { IfOk result (λ x. past_behind past_name x.0 tokens.now ≡ Some x.1.now) }
{
    let rest = sign(tokens, before)?;
    part(alloc, rest)
}

/// Parts, each with the sign before it.
fn parts_behind(
    alloc: Global,
    before: Mark,
    tokens: &[Token],
) -> Result<(Vec<Name>, &[Token]), Stop>
    ensures read { Gives (λ x. map name_view x.0.items) (λ x. x.1.now) result (many (is (Sign before)) (preceded (is (Sign before)) read_part) (kinds tokens.now)) }
    ensures along { IfOk result (λ x. past_each (past_behind past_name) x.0.items tokens.now ≡ Some x.1.now) }
{
    let mut found = Vec::new(alloc);
    let mut rest = tokens;
    'list: while sign_ahead(rest, before) {
        let (item, behind) = signed_part(alloc, before, rest)?;
        found.push(item)?;
        rest = behind;
    }
    Ok((found, rest))
}

/// Parts with a sign between two.
pub fn parts(alloc: Global, between: Mark, tokens: &[Token]) -> Result<(Vec<Name>, &[Token]), Stop>
    ensures read { Gives (λ x. map name_view x.0.items) (λ x. x.1.now) result (separated (is (Sign between)) read_part (kinds tokens.now)) }
    ensures along { IfOk result (λ x. past_list past_name x.0.items tokens.now ≡ Some x.1.now) }
{
    let (first, rest) = part(alloc, tokens)?;
    let (others, rest) = parts_behind(alloc, between, rest)?;
    Ok((with_first(alloc, first, others)?, rest))
}

/// A variable and the parts behind it.
pub fn path(alloc: Global, tokens: &[Token]) -> Result<(PathForm, &[Token]), Stop>
    ensures read { Gives (λ x. path_form_view x.0) (λ x. x.1.now) result (read_path (kinds tokens.now)) }
    ensures along { IfOk result (λ x. past_path x.0 tokens.now ≡ Some x.1.now) }
{
    let (variable, rest) = name(alloc, tokens)?;
    let (others, rest) = parts_behind(alloc, Mark::Dot, rest)?;
    let parts = with_first(alloc, variable, others)?;
    Ok((PathForm { parts }, rest))
}

/// A path to a component: a variable, and at least one part behind it.
pub fn component_path(alloc: Global, tokens: &[Token]) -> Result<(PathForm, &[Token]), Stop>
    ensures read { Gives (λ x. path_form_view x.0) (λ x. x.1.now) result (read_component_path (kinds tokens.now)) }
    ensures along { IfOk result (λ x. past_path x.0 tokens.now ≡ Some x.1.now) }
{
    let (variable, rest) = name(alloc, tokens)?;
    let rest = sign(rest, Mark::Dot)?;
    let (others, rest) = parts(alloc, Mark::Dot, rest)?;
    let parts = with_first(alloc, variable, others)?;
    Ok((PathForm { parts }, rest))
}

/// What goes on behind a name: a value of the enumeration with that name, or the parts of a path.
fn named(alloc: Global, name: Name, tokens: &[Token]) -> Result<(Atom, &[Token]), Stop>
    ensures read { Gives (λ x. atom_view x.0) (λ x. x.1.now) result (mapped (named (name_view name)) behind_name (kinds tokens.now)) }
    ensures along { IfOk result (λ x. (before : _) → past_name name before ≡ Some tokens.now → past_atom x.0 before ≡ Some x.1.now) }
{
    if sign_ahead(tokens, Mark::Hash) {
        let (value, rest) = signed_part(alloc, Mark::Hash, tokens)?;
        return Ok((Atom::Literal(Literal::Tag(name, value)), rest));
    }
    let (others, rest) = parts_behind(alloc, Mark::Dot, tokens)?;
    let parts = with_first(alloc, name, others)?;
    Ok((Atom::Path(PathForm { parts }), rest))
}

/// A literal or a path.
pub fn atom(alloc: Global, tokens: &[Token]) -> Result<(Atom, &[Token]), Stop>
    ensures read { Gives (λ x. atom_view x.0) (λ x. x.1.now) result (read_atom (kinds tokens.now)) }
    ensures along { IfOk result (λ x. past_atom x.0 tokens.now ≡ Some x.1.now) }
{
    if is_constant_ahead(tokens) {
        let (literal, rest) = constant(alloc, tokens)?;
        return Ok((Atom::Literal(literal), rest));
    }
    let (variable, rest) = name(alloc, tokens)?;
    let (atom, rest) = named(alloc, variable, rest)?;
    Ok((atom, rest))
}
