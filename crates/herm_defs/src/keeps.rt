//! Parameters that exceptions keep.
ghost use Rattle.std.specs.Prelude.{◌≡◌, ◌||◌, ◌&&◌, not, IfOk, map, slice_get, false};
ghost use Rattle.std.specs.List.{list_any};
ghost use Rattle.herm_model.specs.Lists.{IsIn, map_or};
ghost use Rattle.herm_syntax.specs.Trees.{Raising};
ghost use Rattle.herm_meaning.specs.DefinitionFaults.{KeepsBadly};
ghost use Rattle.herm_graph.specs.Tells.{Tells};
ghost use Rattle.herm_syntax.specs.View.{param_form_view, raise_form_view, mode_form_view};
ghost use Rattle.herm_defs.specs.Plain.{comes_back, not_returned, keeps_badly};

use crate::context::Context;
use crate::listed::param_names;
use crate::names::Names;
use herm_base::Name;
use herm_syntax::{ModeForm, ParamForm, RaiseForm};
use std::alloc::{AllocError, Global};

/// The exception that keeps no parameter.
const DISCONNECTED: usize = 6;

fn comes_back(mode: ModeForm) -> bool
    ensures { result ≡ comes_back (mode_form_view mode) }
{
    match mode {
        ModeForm::In => false,
        ModeForm::Inout => true,
        ModeForm::Out => true,
    }
}

/// Whether there is a parameter at a place, and it comes back.
fn comes_back_at(params: &[ParamForm], place: usize) -> bool
    ensures { result ≡ map_or false (λ p. comes_back p.0) (slice_get (map param_form_view params.now) place) }
{
    match params.get(place) {
        Some(param) => comes_back(param.mode),
        None => false,
    }
}

/// Whether a name is that of no parameter that comes back.
fn is_not_returned(params: &[ParamForm], names: &Names, keep: &Name) -> bool
    requires names { names.now ≡ map (λ p. p.1.0) (map param_form_view params.now) }
    ensures { result ≡ not_returned (map param_form_view params.now) keep.now.text }
{
    !comes_back_at(params, names.place(keep.text.bytes()))
}

/// Whether some name is that of no parameter that comes back.
fn any_not_returned(params: &[ParamForm], names: &Names, keeps: &[Name]) -> bool
    requires names { names.now ≡ map (λ p. p.1.0) (map param_form_view params.now) }
    ensures { result ≡ list_any (λ k. not_returned (map param_form_view params.now) k.text) keeps.now }
{
    let mut any = false;
    for keep in keeps {
        let is_bad = is_not_returned(params, names, keep);
        any = any || is_bad;
    }
    any
}

/// Whether parameters are kept badly, by what is so of them and of the exception.
fn are_bad(is_disconnected: bool, is_empty: bool, any: bool) -> bool
    ensures { result ≡ ((is_disconnected && not is_empty) || any) }
{
    is_disconnected && !is_empty || any
}

/// Whether an exception keeps what it cannot.
fn keeps_badly(context: &Context, params: &[ParamForm], names: &Names, raise: &RaiseForm) -> bool
    requires names { names.now ≡ map (λ p. p.1.0) (map param_form_view params.now) }
    ensures { result ≡ keeps_badly context.now.exceptions (map param_form_view params.now) (raise_form_view raise.now) }
{
    let keeps = raise.keeps.as_slice();
    let any = any_not_returned(params, names, keeps);
    let number = context.exception_of(&raise.name);
    are_bad(number == DISCONNECTED, keeps.len() == 0, any)
}

/// Whether some exception keeps what it cannot.
fn any_bad_raise(
    alloc: Global,
    context: &Context,
    params: &[ParamForm],
    raises: &[RaiseForm],
) -> Result<bool, AllocError>
    ensures { IfOk result (λ b. b ≡ list_any (λ r. keeps_badly context.now.exceptions (map param_form_view params.now) (raise_form_view r)) raises.now) }
{
    let names = param_names(alloc, params)?;
    let mut any = false;
    for raise in raises {
        let is_bad = keeps_badly(context, params, &names, raise);
        any = any || is_bad;
    }
    Ok(any)
}

/// Whether some exception of a callmessage keeps what it cannot.
pub fn any_keeps_badly(
    alloc: Global,
    context: &Context,
    params: &[ParamForm],
    raises: &[RaiseForm],
) -> Result<bool, AllocError>
    ensures { IfOk result (λ b. Tells b ((r : Raising) × IsIn r (map raise_form_view raises.now) × KeepsBadly context.now (map param_form_view params.now) r)) }
{
    let any = any_bad_raise(alloc, context, params, raises)?;
    Ok(any)
}
