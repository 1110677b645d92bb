//! Definitions of types and exceptions.
ghost use Rattle.std.specs.Prelude.{◌≡◌, ◌∷◌, map, Some, IfOk};
ghost use Rattle.herm_readers.specs.Combinators.{preceded, many, separated};
ghost use Rattle.herm_syntax.specs.Symbols.{is, comma, paren_close};
ghost use Rattle.herm_syntax.specs.ReadExpressions.{in_parens};
ghost use Rattle.herm_syntax.specs.ReadStatements.{listed};
ghost use Rattle.herm_syntax.specs.ReadModules.{read_field, read_param, read_fact, read_fact_path, read_facts, read_kept, read_raising, read_raisings, read_shape, read_item, read_variables};
ghost use Rattle.herm_syntax.specs.View.{name_view, mode_form_view, field_view, param_form_view, dfact_view, raise_form_view, shape_form_view, def_item_view};
ghost use Rattle.herm_parser.specs.Along.{past_each, past_behind, past_list, past_token};
ghost use Rattle.herm_parser.specs.AlongDefinitions.{past_enclosed, past_field, past_param, past_names, past_fact, past_facts, past_keep, past_kept, past_raising, past_raisings, past_shape, past_definition, past_item, past_variables};
ghost use Rattle.herm_parser.specs.Shapes.{read_keep, names_at, fields_at, cases_at, rows_at, inport_at, outport_at, callmessage_at, shape_at, type_at, exception_at, read_mode};
ghost use Rattle.herm_syntax.specs.declared.definitions.ShapeForm.TheVariants.{Names, Fields, Cases, Rows, Inport, Outport, CallMessage};
ghost use Rattle.herm_syntax.specs.declared.definitions.DefForm.TheVariants.{Shaped, Exception};
ghost use Rattle.herm_parser.specs.Gives.{kinds, Gives};

use crate::paths::{parts, with_first};
use crate::stop::Stop;
use crate::tokens::{key, key_ahead, name, part, sign, sign_ahead};
use herm_alphabet::{Keyword, Mark, Token, TokenKind};
use herm_base::Name;
use herm_syntax::{DFact, DefForm, DefItem, Field, ModeForm, ParamForm, RaiseForm, ShapeForm};
use std::alloc::Global;

/// A part, a colon and the name of its type.
pub fn field(alloc: Global, tokens: &[Token]) -> Result<(Field, &[Token]), Stop>
    ensures read { Gives (λ x. field_view x.0) (λ x. x.1.now) result (read_field (kinds tokens.now)) }
    ensures along { IfOk result (λ x. past_field x.0 tokens.now ≡ Some x.1.now) }
{
    let (name_of_part, rest) = part(alloc, tokens)?;
    let rest = sign(rest, Mark::Colon)?;
    let (of, rest) = name(alloc, rest)?;
    Ok((
        Field {
            name: name_of_part,
            of,
        },
        rest,
    ))
}

/// Fields, each behind a comma.
fn fields_behind(alloc: Global, tokens: &[Token]) -> Result<(Vec<Field>, &[Token]), Stop>
    ensures read { Gives (λ x. map field_view x.0.items) (λ x. x.1.now) result (many (is comma) (preceded (is comma) read_field) (kinds tokens.now)) }
    ensures along { IfOk result (λ x. past_each (past_behind past_field) x.0.items tokens.now ≡ Some x.1.now) }
{
    let mut found = Vec::new(alloc);
    let mut rest = tokens;
    'list: while sign_ahead(rest, Mark::Comma) {
        let (item, behind) = comma_field(alloc, rest)?;
        found.push(item)?;
        rest = behind;
    }
    Ok((found, rest))
}

/// A comma, and then the same.
fn comma_field(alloc: Global, tokens: &[Token]) -> Result<(Field, &[Token]), Stop>
    ensures read { Gives (λ x. field_view x.0) (λ x. x.1.now) result (preceded (is comma) read_field (kinds tokens.now)) }
    ensures along { IfOk result (λ x. past_behind past_field x.0 tokens.now ≡ Some x.1.now) }
{
    let rest = sign(tokens, Mark::Comma)?;
    field(alloc, rest)
}

/// The same with commas, one at least.
pub fn fields(alloc: Global, tokens: &[Token]) -> Result<(Vec<Field>, &[Token]), Stop>
    ensures read { Gives (λ x. map field_view x.0.items) (λ x. x.1.now) result (separated (is comma) read_field (kinds tokens.now)) }
    ensures along { IfOk result (λ x. past_list past_field x.0.items tokens.now ≡ Some x.1.now) }
    ensures some { IfOk result (λ x. (item : _) × (others : _) × (x.0.items ≡ item ∷ others)) }
{
    let (first, rest) = field(alloc, tokens)?;
    let (others, rest) = fields_behind(alloc, rest)?;
    Ok((with_first(alloc, first, others)?, rest))
}

/// How a parameter goes.
fn mode(tokens: &[Token]) -> Result<(ModeForm, &[Token]), Stop>
    ensures read { Gives (λ x. mode_form_view x.0) (λ x. x.1.now) result (read_mode (kinds tokens.now)) }
    ensures along { IfOk result (λ x. past_token tokens.now ≡ Some x.1.now) }
{
    match tokens {
        [first, rest @ ..] => match &first.kind {
            TokenKind::Key(Keyword::KwIn) => Ok((ModeForm::In, rest)),
            TokenKind::Key(Keyword::KwInout) => Ok((ModeForm::Inout, rest)),
            TokenKind::Key(Keyword::KwOut) => Ok((ModeForm::Out, rest)),
            _ => Err(Stop::Syntax(tokens.len())),
        },
        [] => Err(Stop::Syntax(0)),
    }
}

/// A parameter: how it goes, and a field.
fn param(alloc: Global, tokens: &[Token]) -> Result<(ParamForm, &[Token]), Stop>
    ensures read { Gives (λ x. param_form_view x.0) (λ x. x.1.now) result (read_param (kinds tokens.now)) }
    ensures along { IfOk result (λ x. past_param x.0 tokens.now ≡ Some x.1.now) }
{
    let (mode, rest) = mode(tokens)?;
    let (field, rest) = field(alloc, rest)?;
    Ok((ParamForm { mode, field }, rest))
}

/// Parameters, each behind a comma.
fn params_behind(alloc: Global, tokens: &[Token]) -> Result<(Vec<ParamForm>, &[Token]), Stop>
    ensures read { Gives (λ x. map param_form_view x.0.items) (λ x. x.1.now) result (many (is comma) (preceded (is comma) read_param) (kinds tokens.now)) }
    ensures along { IfOk result (λ x. past_each (past_behind past_param) x.0.items tokens.now ≡ Some x.1.now) }
{
    let mut found = Vec::new(alloc);
    let mut rest = tokens;
    'list: while sign_ahead(rest, Mark::Comma) {
        let (item, behind) = comma_param(alloc, rest)?;
        found.push(item)?;
        rest = behind;
    }
    Ok((found, rest))
}

/// A comma, and then the same.
fn comma_param(alloc: Global, tokens: &[Token]) -> Result<(ParamForm, &[Token]), Stop>
    ensures read { Gives (λ x. param_form_view x.0) (λ x. x.1.now) result (preceded (is comma) read_param (kinds tokens.now)) }
    ensures along { IfOk result (λ x. past_behind past_param x.0 tokens.now ≡ Some x.1.now) }
{
    let rest = sign(tokens, Mark::Comma)?;
    param(alloc, rest)
}

/// The same with commas, one at least.
fn params(alloc: Global, tokens: &[Token]) -> Result<(Vec<ParamForm>, &[Token]), Stop>
    ensures read { Gives (λ x. map param_form_view x.0.items) (λ x. x.1.now) result (separated (is comma) read_param (kinds tokens.now)) }
    ensures along { IfOk result (λ x. past_list past_param x.0.items tokens.now ≡ Some x.1.now) }
    ensures some { IfOk result (λ x. (item : _) × (others : _) × (x.0.items ≡ item ∷ others)) }
{
    let (first, rest) = param(alloc, tokens)?;
    let (others, rest) = params_behind(alloc, rest)?;
    Ok((with_first(alloc, first, others)?, rest))
}

/// Parameters in parentheses, maybe none.
fn parameters(alloc: Global, tokens: &[Token]) -> Result<(Vec<ParamForm>, &[Token]), Stop>
    ensures read { Gives (λ x. map param_form_view x.0.items) (λ x. x.1.now) result (in_parens (listed paren_close read_param) (kinds tokens.now)) }
    ensures along { IfOk result (λ x. past_enclosed (past_list past_param x.0.items) tokens.now ≡ Some x.1.now) }
{
    let rest = sign(tokens, Mark::ParenOpen)?;
    if sign_ahead(rest, Mark::ParenClose) {
        let rest = sign(rest, Mark::ParenClose)?;
        return Ok((Vec::new(alloc), rest));
    }
    let (found, rest) = params(alloc, rest)?;
    let rest = sign(rest, Mark::ParenClose)?;
    Ok((found, rest))
}

/// The path of a declared fact in parentheses.
fn names_in_parens(alloc: Global, tokens: &[Token]) -> Result<(Vec<Name>, &[Token]), Stop>
    ensures read { Gives (λ x. map name_view x.0.items) (λ x. x.1.now) result (in_parens read_fact_path (kinds tokens.now)) }
    ensures along { IfOk result (λ x. past_enclosed (past_names x.0.items) tokens.now ≡ Some x.1.now) }
{
    let rest = sign(tokens, Mark::ParenOpen)?;
    let (found, rest) = parts(alloc, Mark::Dot, rest)?;
    let rest = sign(rest, Mark::ParenClose)?;
    Ok((found, rest))
}

/// A declared fact.
fn fact(alloc: Global, tokens: &[Token]) -> Result<(DFact, &[Token]), Stop>
    ensures read { Gives (λ x. dfact_view x.0) (λ x. x.1.now) result (read_fact (kinds tokens.now)) }
    ensures along { IfOk result (λ x. past_fact x.0 tokens.now ≡ Some x.1.now) }
{
    if key_ahead(tokens, Keyword::KwInit) {
        let rest = key(tokens, Keyword::KwInit)?;
        let (path, rest) = names_in_parens(alloc, rest)?;
        return Ok((DFact::Init(path), rest));
    }
    if key_ahead(tokens, Keyword::KwFull) {
        let rest = key(tokens, Keyword::KwFull)?;
        let (path, rest) = names_in_parens(alloc, rest)?;
        return Ok((DFact::Full(path), rest));
    }
    let rest = key(tokens, Keyword::KwCase)?;
    let rest = sign(rest, Mark::ParenOpen)?;
    let (path, rest) = parts(alloc, Mark::Dot, rest)?;
    let rest = sign(rest, Mark::Comma)?;
    let (component, rest) = part(alloc, rest)?;
    let rest = sign(rest, Mark::ParenClose)?;
    Ok((DFact::Case(path, component), rest))
}

/// Declared facts, each behind a comma.
fn fact_list_behind(alloc: Global, tokens: &[Token]) -> Result<(Vec<DFact>, &[Token]), Stop>
    ensures read { Gives (λ x. map dfact_view x.0.items) (λ x. x.1.now) result (many (is comma) (preceded (is comma) read_fact) (kinds tokens.now)) }
    ensures along { IfOk result (λ x. past_each (past_behind past_fact) x.0.items tokens.now ≡ Some x.1.now) }
{
    let mut found = Vec::new(alloc);
    let mut rest = tokens;
    'list: while sign_ahead(rest, Mark::Comma) {
        let (item, behind) = comma_fact(alloc, rest)?;
        found.push(item)?;
        rest = behind;
    }
    Ok((found, rest))
}

/// A comma, and then the same.
fn comma_fact(alloc: Global, tokens: &[Token]) -> Result<(DFact, &[Token]), Stop>
    ensures read { Gives (λ x. dfact_view x.0) (λ x. x.1.now) result (preceded (is comma) read_fact (kinds tokens.now)) }
    ensures along { IfOk result (λ x. past_behind past_fact x.0 tokens.now ≡ Some x.1.now) }
{
    let rest = sign(tokens, Mark::Comma)?;
    fact(alloc, rest)
}

/// The same with commas, one at least.
fn fact_list(alloc: Global, tokens: &[Token]) -> Result<(Vec<DFact>, &[Token]), Stop>
    ensures read { Gives (λ x. map dfact_view x.0.items) (λ x. x.1.now) result (separated (is comma) read_fact (kinds tokens.now)) }
    ensures along { IfOk result (λ x. past_list past_fact x.0.items tokens.now ≡ Some x.1.now) }
    ensures some { IfOk result (λ x. (item : _) × (others : _) × (x.0.items ≡ item ∷ others)) }
{
    let (first, rest) = fact(alloc, tokens)?;
    let (others, rest) = fact_list_behind(alloc, rest)?;
    Ok((with_first(alloc, first, others)?, rest))
}

/// Declared facts in braces, or nothing.
fn facts(alloc: Global, tokens: &[Token]) -> Result<(Vec<DFact>, &[Token]), Stop>
    ensures read { Gives (λ x. map dfact_view x.0.items) (λ x. x.1.now) result (read_facts (kinds tokens.now)) }
    ensures along { IfOk result (λ x. past_facts x.0.items tokens.now ≡ Some x.1.now) }
{
    if !sign_ahead(tokens, Mark::BraceOpen) {
        return Ok((Vec::new(alloc), tokens));
    }
    let rest = sign(tokens, Mark::BraceOpen)?;
    let (found, rest) = fact_list(alloc, rest)?;
    let rest = sign(rest, Mark::BraceClose)?;
    Ok((found, rest))
}

/// A parameter that is kept: `full` and the part in parentheses.
fn keep(alloc: Global, tokens: &[Token]) -> Result<(Name, &[Token]), Stop>
    ensures read { Gives (λ x. name_view x.0) (λ x. x.1.now) result (read_keep (kinds tokens.now)) }
    ensures along { IfOk result (λ x. past_keep x.0 tokens.now ≡ Some x.1.now) }
{
    let rest = key(tokens, Keyword::KwFull)?;
    let rest = sign(rest, Mark::ParenOpen)?;
    let (kept, rest) = part(alloc, rest)?;
    let rest = sign(rest, Mark::ParenClose)?;
    Ok((kept, rest))
}

/// Kept parameters, each behind a comma.
fn keep_list_behind(alloc: Global, tokens: &[Token]) -> Result<(Vec<Name>, &[Token]), Stop>
    ensures read { Gives (λ x. map name_view x.0.items) (λ x. x.1.now) result (many (is comma) (preceded (is comma) read_keep) (kinds tokens.now)) }
    ensures along { IfOk result (λ x. past_each (past_behind past_keep) x.0.items tokens.now ≡ Some x.1.now) }
{
    let mut found = Vec::new(alloc);
    let mut rest = tokens;
    'list: while sign_ahead(rest, Mark::Comma) {
        let (item, behind) = comma_keep(alloc, rest)?;
        found.push(item)?;
        rest = behind;
    }
    Ok((found, rest))
}

/// A comma, and then the same.
fn comma_keep(alloc: Global, tokens: &[Token]) -> Result<(Name, &[Token]), Stop>
    ensures read { Gives (λ x. name_view x.0) (λ x. x.1.now) result (preceded (is comma) read_keep (kinds tokens.now)) }
    ensures along { IfOk result (λ x. past_behind past_keep x.0 tokens.now ≡ Some x.1.now) }
{
    let rest = sign(tokens, Mark::Comma)?;
    keep(alloc, rest)
}

/// The same with commas, one at least.
fn keep_list(alloc: Global, tokens: &[Token]) -> Result<(Vec<Name>, &[Token]), Stop>
    ensures read { Gives (λ x. map name_view x.0.items) (λ x. x.1.now) result (separated (is comma) read_keep (kinds tokens.now)) }
    ensures along { IfOk result (λ x. past_list past_keep x.0.items tokens.now ≡ Some x.1.now) }
    ensures some { IfOk result (λ x. (item : _) × (others : _) × (x.0.items ≡ item ∷ others)) }
{
    let (first, rest) = keep(alloc, tokens)?;
    let (others, rest) = keep_list_behind(alloc, rest)?;
    Ok((with_first(alloc, first, others)?, rest))
}

/// Kept parameters in braces, or nothing.
fn kept(alloc: Global, tokens: &[Token]) -> Result<(Vec<Name>, &[Token]), Stop>
    ensures read { Gives (λ x. map name_view x.0.items) (λ x. x.1.now) result (read_kept (kinds tokens.now)) }
    ensures along { IfOk result (λ x. past_kept x.0.items tokens.now ≡ Some x.1.now) }
{
    if !sign_ahead(tokens, Mark::BraceOpen) {
        return Ok((Vec::new(alloc), tokens));
    }
    let rest = sign(tokens, Mark::BraceOpen)?;
    let (found, rest) = keep_list(alloc, rest)?;
    let rest = sign(rest, Mark::BraceClose)?;
    Ok((found, rest))
}

/// An exception that may be raised, and the parameters that it keeps.
fn raising(alloc: Global, tokens: &[Token]) -> Result<(RaiseForm, &[Token]), Stop>
    ensures read { Gives (λ x. raise_form_view x.0) (λ x. x.1.now) result (read_raising (kinds tokens.now)) }
    ensures along { IfOk result (λ x. past_raising x.0 tokens.now ≡ Some x.1.now) }
{
    let (exception, rest) = name(alloc, tokens)?;
    let (keeps, rest) = kept(alloc, rest)?;
    Ok((
        RaiseForm {
            name: exception,
            keeps,
        },
        rest,
    ))
}

/// Exceptions that may be raised, each behind a comma.
fn raising_list_behind(alloc: Global, tokens: &[Token]) -> Result<(Vec<RaiseForm>, &[Token]), Stop>
    ensures read { Gives (λ x. map raise_form_view x.0.items) (λ x. x.1.now) result (many (is comma) (preceded (is comma) read_raising) (kinds tokens.now)) }
    ensures along { IfOk result (λ x. past_each (past_behind past_raising) x.0.items tokens.now ≡ Some x.1.now) }
{
    let mut found = Vec::new(alloc);
    let mut rest = tokens;
    'list: while sign_ahead(rest, Mark::Comma) {
        let (item, behind) = comma_raising(alloc, rest)?;
        found.push(item)?;
        rest = behind;
    }
    Ok((found, rest))
}

/// A comma, and then the same.
fn comma_raising(alloc: Global, tokens: &[Token]) -> Result<(RaiseForm, &[Token]), Stop>
    ensures read { Gives (λ x. raise_form_view x.0) (λ x. x.1.now) result (preceded (is comma) read_raising (kinds tokens.now)) }
    ensures along { IfOk result (λ x. past_behind past_raising x.0 tokens.now ≡ Some x.1.now) }
{
    let rest = sign(tokens, Mark::Comma)?;
    raising(alloc, rest)
}

/// The same with commas, one at least.
fn raising_list(alloc: Global, tokens: &[Token]) -> Result<(Vec<RaiseForm>, &[Token]), Stop>
    ensures read { Gives (λ x. map raise_form_view x.0.items) (λ x. x.1.now) result (separated (is comma) read_raising (kinds tokens.now)) }
    ensures along { IfOk result (λ x. past_list past_raising x.0.items tokens.now ≡ Some x.1.now) }
    ensures some { IfOk result (λ x. (item : _) × (others : _) × (x.0.items ≡ item ∷ others)) }
{
    let (first, rest) = raising(alloc, tokens)?;
    let (others, rest) = raising_list_behind(alloc, rest)?;
    Ok((with_first(alloc, first, others)?, rest))
}

/// The exceptions that may be raised, or nothing.
fn raisings(alloc: Global, tokens: &[Token]) -> Result<(Vec<RaiseForm>, &[Token]), Stop>
    ensures read { Gives (λ x. map raise_form_view x.0.items) (λ x. x.1.now) result (read_raisings (kinds tokens.now)) }
    ensures along { IfOk result (λ x. past_raisings x.0.items tokens.now ≡ Some x.1.now) }
{
    if !key_ahead(tokens, Keyword::KwRaises) {
        return Ok((Vec::new(alloc), tokens));
    }
    let rest = key(tokens, Keyword::KwRaises)?;
    let rest = sign(rest, Mark::ParenOpen)?;
    let (found, rest) = raising_list(alloc, rest)?;
    let rest = sign(rest, Mark::ParenClose)?;
    Ok((found, rest))
}

/// The values of an enumeration.
#[tactic(auto, unfolding(crate::specs::Shapes::names_at))]
fn names_shape(alloc: Global, tokens: &[Token]) -> Result<(Vec<Name>, &[Token]), Stop>
    ensures read { Gives (λ x. map name_view x.0.items) (λ x. x.1.now) result (names_at (kinds tokens.now)) }
    ensures along { IfOk result (λ x. past_shape (Names x.0) tokens.now ≡ Some x.1.now) }
{
    let rest = key(tokens, Keyword::KwEnum)?;
    let rest = sign(rest, Mark::BraceOpen)?;
    let (found, rest) = parts(alloc, Mark::Comma, rest)?;
    let rest = sign(rest, Mark::BraceClose)?;
    Ok((found, rest))
}

/// The fields of a record.
#[tactic(auto, unfolding(crate::specs::Shapes::fields_at))]
fn fields_shape(alloc: Global, tokens: &[Token]) -> Result<(Vec<Field>, &[Token]), Stop>
    ensures read { Gives (λ x. map field_view x.0.items) (λ x. x.1.now) result (fields_at (kinds tokens.now)) }
    ensures along { IfOk result (λ x. past_shape (Fields x.0) tokens.now ≡ Some x.1.now) }
{
    let rest = key(tokens, Keyword::KwRecord)?;
    let rest = sign(rest, Mark::BraceOpen)?;
    let (found, rest) = fields(alloc, rest)?;
    let rest = sign(rest, Mark::BraceClose)?;
    Ok((found, rest))
}

/// The components of a variant.
#[tactic(auto, unfolding(crate::specs::Shapes::cases_at))]
fn cases_shape(alloc: Global, tokens: &[Token]) -> Result<(Vec<Field>, &[Token]), Stop>
    ensures read { Gives (λ x. map field_view x.0.items) (λ x. x.1.now) result (cases_at (kinds tokens.now)) }
    ensures along { IfOk result (λ x. past_shape (Cases x.0) tokens.now ≡ Some x.1.now) }
{
    let rest = key(tokens, Keyword::KwVariant)?;
    let rest = sign(rest, Mark::BraceOpen)?;
    let (found, rest) = fields(alloc, rest)?;
    let rest = sign(rest, Mark::BraceClose)?;
    Ok((found, rest))
}

/// The row and the keys of a table.
#[tactic(auto, unfolding(crate::specs::Shapes::rows_at))]
fn rows_shape(alloc: Global, tokens: &[Token]) -> Result<((Name, Vec<Name>), &[Token]), Stop>
    ensures read { Gives (λ x. (name_view x.0.0, map name_view x.0.1.items)) (λ x. x.1.now) result (rows_at (kinds tokens.now)) }
    ensures along { IfOk result (λ x. past_shape (Rows x.0.0 x.0.1) tokens.now ≡ Some x.1.now) }
{
    let rest = key(tokens, Keyword::KwTable)?;
    let rest = key(rest, Keyword::KwOf)?;
    let (row, rest) = name(alloc, rest)?;
    let rest = key(rest, Keyword::KwKey)?;
    let rest = sign(rest, Mark::ParenOpen)?;
    let (keys, rest) = parts(alloc, Mark::Comma, rest)?;
    let rest = sign(rest, Mark::ParenClose)?;
    Ok(((row, keys), rest))
}

/// The message of an inport and its declared facts.
#[tactic(auto, unfolding(crate::specs::Shapes::inport_at))]
fn inport_shape(alloc: Global, tokens: &[Token]) -> Result<((Name, Vec<DFact>), &[Token]), Stop>
    ensures read { Gives (λ x. (name_view x.0.0, map dfact_view x.0.1.items)) (λ x. x.1.now) result (inport_at (kinds tokens.now)) }
    ensures along { IfOk result (λ x. past_shape (Inport x.0.0 x.0.1) tokens.now ≡ Some x.1.now) }
{
    let rest = key(tokens, Keyword::KwInport)?;
    let rest = key(rest, Keyword::KwOf)?;
    let (message, rest) = name(alloc, rest)?;
    let (declared, rest) = facts(alloc, rest)?;
    Ok(((message, declared), rest))
}

/// The port of an outport.
#[tactic(auto, unfolding(crate::specs::Shapes::outport_at))]
fn outport_shape(alloc: Global, tokens: &[Token]) -> Result<(Name, &[Token]), Stop>
    ensures read { Gives (λ x. name_view x.0) (λ x. x.1.now) result (outport_at (kinds tokens.now)) }
    ensures along { IfOk result (λ x. past_shape (Outport x.0) tokens.now ≡ Some x.1.now) }
{
    let rest = key(tokens, Keyword::KwOutport)?;
    let rest = key(rest, Keyword::KwOf)?;
    let (port, rest) = name(alloc, rest)?;
    Ok((port, rest))
}

/// The parameters of a callmessage and the exceptions that it may raise.
#[tactic(auto, unfolding(crate::specs::Shapes::callmessage_at))]
fn callmessage_shape(
    alloc: Global,
    tokens: &[Token],
) -> Result<((Vec<ParamForm>, Vec<RaiseForm>), &[Token]), Stop>
    ensures read { Gives (λ x. (map param_form_view x.0.0.items, map raise_form_view x.0.1.items)) (λ x. x.1.now) result (callmessage_at (kinds tokens.now)) }
    ensures along { IfOk result (λ x. past_shape (CallMessage x.0.0 x.0.1) tokens.now ≡ Some x.1.now) }
{
    let rest = key(tokens, Keyword::KwCallmessage)?;
    let (params, rest) = parameters(alloc, rest)?;
    let (raises, rest) = raisings(alloc, rest)?;
    Ok(((params, raises), rest))
}

/// The shape of a type.
#[tactic(auto, unfolding(crate::specs::Shapes::shape_at, crate::specs::Shapes::names_at, crate::specs::Shapes::fields_at, crate::specs::Shapes::cases_at, crate::specs::Shapes::rows_at, crate::specs::Shapes::inport_at, crate::specs::Shapes::outport_at, crate::specs::Shapes::callmessage_at))]
fn shape(alloc: Global, tokens: &[Token]) -> Result<(ShapeForm, &[Token]), Stop>
    ensures read { Gives (λ x. shape_form_view x.0) (λ x. x.1.now) result (shape_at (kinds tokens.now)) }
    ensures along { IfOk result (λ x. past_shape x.0 tokens.now ≡ Some x.1.now) }
{
    if key_ahead(tokens, Keyword::KwEnum) {
        let (names, rest) = names_shape(alloc, tokens)?;
        return Ok((ShapeForm::Names(names), rest));
    }
    if key_ahead(tokens, Keyword::KwRecord) {
        let (fields, rest) = fields_shape(alloc, tokens)?;
        return Ok((ShapeForm::Fields(fields), rest));
    }
    if key_ahead(tokens, Keyword::KwVariant) {
        let (cases, rest) = cases_shape(alloc, tokens)?;
        return Ok((ShapeForm::Cases(cases), rest));
    }
    if key_ahead(tokens, Keyword::KwTable) {
        let ((row, keys), rest) = rows_shape(alloc, tokens)?;
        return Ok((ShapeForm::Rows { row, keys }, rest));
    }
    if key_ahead(tokens, Keyword::KwInport) {
        let ((message, facts), rest) = inport_shape(alloc, tokens)?;
        return Ok((ShapeForm::Inport { message, facts }, rest));
    }
    if key_ahead(tokens, Keyword::KwOutport) {
        let (port, rest) = outport_shape(alloc, tokens)?;
        return Ok((ShapeForm::Outport { port }, rest));
    }
    let ((params, raises), rest) = callmessage_shape(alloc, tokens)?;
    Ok((ShapeForm::CallMessage { params, raises }, rest))
}

/// `type`, a name, `=`, a shape and the semicolon.
#[tactic(auto, unfolding(crate::specs::Shapes::type_at))]
fn type_item(alloc: Global, tokens: &[Token]) -> Result<((Name, ShapeForm), &[Token]), Stop>
    ensures read { Gives (λ x. (name_view x.0.0, shape_form_view x.0.1)) (λ x. x.1.now) result (type_at (kinds tokens.now)) }
    ensures along { IfOk result (λ x. past_definition x.0.0 (Shaped x.0.1) tokens.now ≡ Some x.1.now) }
{
    let rest = key(tokens, Keyword::KwType)?;
    let (defined, rest) = name(alloc, rest)?;
    let rest = sign(rest, Mark::Equal)?;
    let (shape, rest) = shape(alloc, rest)?;
    let rest = sign(rest, Mark::Semicolon)?;
    Ok(((defined, shape), rest))
}

/// `exception`, a name and the semicolon.
#[tactic(auto, unfolding(crate::specs::Shapes::exception_at))]
fn exception_item(alloc: Global, tokens: &[Token]) -> Result<(Name, &[Token]), Stop>
    ensures read { Gives (λ x. name_view x.0) (λ x. x.1.now) result (exception_at (kinds tokens.now)) }
    ensures along { IfOk result (λ x. past_definition x.0 Exception tokens.now ≡ Some x.1.now) }
{
    let rest = key(tokens, Keyword::KwException)?;
    let (defined, rest) = name(alloc, rest)?;
    let rest = sign(rest, Mark::Semicolon)?;
    Ok((defined, rest))
}

/// An item of a definitions module.
#[tactic(auto, unfolding(crate::specs::Shapes::type_at, crate::specs::Shapes::exception_at, crate::specs::Shapes::shape_at))]
pub fn item(alloc: Global, tokens: &[Token]) -> Result<(DefItem, &[Token]), Stop>
    ensures read { Gives (λ x. def_item_view x.0) (λ x. x.1.now) result (read_item (kinds tokens.now)) }
    ensures along { IfOk result (λ x. past_item x.0 tokens.now ≡ Some x.1.now) }
{
    if key_ahead(tokens, Keyword::KwType) {
        let ((name, shape), rest) = type_item(alloc, tokens)?;
        let form = DefForm::Shaped(shape);
        return Ok((DefItem { name, form }, rest));
    }
    let (name, rest) = exception_item(alloc, tokens)?;
    let form = DefForm::Exception;
    Ok((DefItem { name, form }, rest))
}

/// The declarations of a process, or nothing.
pub fn variables(alloc: Global, tokens: &[Token]) -> Result<(Vec<Field>, &[Token]), Stop>
    ensures read { Gives (λ x. map field_view x.0.items) (λ x. x.1.now) result (read_variables (kinds tokens.now)) }
    ensures along { IfOk result (λ x. past_variables x.0.items tokens.now ≡ Some x.1.now) }
{
    if !key_ahead(tokens, Keyword::KwVar) {
        return Ok((Vec::new(alloc), tokens));
    }
    let rest = key(tokens, Keyword::KwVar)?;
    let (found, rest) = fields(alloc, rest)?;
    let rest = sign(rest, Mark::Semicolon)?;
    Ok((found, rest))
}
