//! Names of lists, found by their bytes.
ghost use Rattle.std.specs.Prelude.{◌≡◌, IfOk, map};
ghost use Rattle.herm_syntax.specs.View.{name_view, param_form_view};

use crate::names::Names;
use herm_base::Name;
use herm_syntax::{Field, ParamForm, RaiseForm};
use std::alloc::{AllocError, Global};

pub fn names_of(alloc: Global, list: &[Name]) -> Result<Names, AllocError>
    ensures { IfOk result (λ n. n ≡ map name_view list.now) }
{
    let mut words = Vec::with_capacity(alloc, list.len())?;
    for name in list {
        let word = name.text.clone()?;
        words.push(word)?;
    }
    let names = Names::of(alloc, words)?;
    Ok(names)
}

pub fn field_names(alloc: Global, fields: &[Field]) -> Result<Names, AllocError>
    ensures { IfOk result (λ n. n ≡ map (λ f. f.name.text) fields.now) }
{
    let mut words = Vec::with_capacity(alloc, fields.len())?;
    for field in fields {
        let word = field.name.text.clone()?;
        words.push(word)?;
    }
    let names = Names::of(alloc, words)?;
    Ok(names)
}

pub fn param_names(alloc: Global, params: &[ParamForm]) -> Result<Names, AllocError>
    ensures { IfOk result (λ n. n ≡ map (λ p. p.1.0) (map param_form_view params.now)) }
{
    let mut words = Vec::with_capacity(alloc, params.len())?;
    for param in params {
        let word = param.field.name.text.clone()?;
        words.push(word)?;
    }
    let names = Names::of(alloc, words)?;
    Ok(names)
}

pub fn raise_names(alloc: Global, raises: &[RaiseForm]) -> Result<Names, AllocError>
    ensures { IfOk result (λ n. n ≡ map (λ r. r.name.text) raises.now) }
{
    let mut words = Vec::with_capacity(alloc, raises.len())?;
    for raise in raises {
        let word = raise.name.text.clone()?;
        words.push(word)?;
    }
    let names = Names::of(alloc, words)?;
    Ok(names)
}
