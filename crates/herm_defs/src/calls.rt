//! Callmessages with the parameters that their exceptions keep.
ghost use Rattle.std.specs.Prelude.{◌≡◌, ◌<◌, ◌^◌, ◌++◌, [], ◌∷◌, cond, IfOk, OnOk, map, length};
ghost use Rattle.std.specs.List.{list_any};
ghost use Rattle.std.specs.Str.{bytes_eq};
ghost use Rattle.herm_syntax.specs.View.{name_view, param_form_view, raise_form_view};
ghost use Rattle.herm_types.specs.View.{raise_decl_view, shape_view, parts_view};
ghost use Rattle.herm_meaning.specs.Meaning.{raising_meant, kept_places, meant_call};

use crate::names::Names;
use crate::outline::params_of;
use herm_base::{ExcNo, Name};
use herm_syntax::{ParamForm, RaiseForm};
use herm_types::{RaiseDecl, Shape};
use std::alloc::{AllocError, Global};

fn any_is(names: &[Name], name: &[u8]) -> bool
    ensures { result ≡ list_any (λ n. bytes_eq name.now (name_view n)) names.now }
{
    names.iter().any(|other| name == other.text.bytes())
}

fn is_among(names: &[Name], name: &[u8]) -> bool
    ensures { result ≡ list_any (bytes_eq name.now) (map name_view names.now) }
{
    any_is(names, name)
}

fn push_if(numbers: &mut Vec<u32>, test: bool, number: u32) -> Result<(), AllocError>
    ensures { OnOk result (numbers.new.items ≡ numbers.old.items ++ cond test (number ∷ []) []) }
{
    if test {
        numbers.push(number)?;
        return Ok(());
    }
    Ok(())
}

/// The places of the parameters that are kept, rising.
fn kept_places(alloc: Global, params: &[ParamForm], keeps: &[Name]) -> Result<Vec<u32>, AllocError>
    requires { length params.now < 2 ^ 31 }
    ensures { IfOk result (λ v. v.items ≡ kept_places 0 (map (λ p. p.1.0) (map param_form_view params.now)) (map name_view keeps.now)) }
{
    let mut kept = Vec::new(alloc);
    if keeps.is_empty() {
        return Ok(kept);
    }
    for (place, param) in params.iter().enumerate() {
        let test = is_among(keeps, param.field.name.text.bytes());
        push_if(&mut kept, test, place as u32)?;
    }
    Ok(kept)
}

fn raises_of(
    alloc: Global,
    types: &Names,
    exceptions: &Names,
    params: &[ParamForm],
    raises: &[RaiseForm],
) -> Result<Vec<RaiseDecl>, AllocError>
    requires few { length params.now < 2 ^ 31 }
    requires exceptions { length exceptions.now < 2 ^ 32 }
    ensures { IfOk result (λ v. map raise_decl_view v.items ≡ map (raising_meant types.now exceptions.now (map param_form_view params.now)) (map raise_form_view raises.now)) }
{
    let mut numbered = Vec::new(alloc);
    for raise in raises {
        let exc = ExcNo(exceptions.number(raise.name.text.bytes()));
        let keeps = kept_places(alloc, params, raise.keeps.as_slice())?;
        numbered.push(RaiseDecl { exc, keeps })?;
    }
    Ok(numbered)
}

/// A callmessage with what its exceptions keep.
pub fn call_of(
    alloc: Global,
    types: &Names,
    exceptions: &Names,
    params: &[ParamForm],
    raises: &[RaiseForm],
) -> Result<Shape, AllocError>
    requires few { length params.now < 2 ^ 31 }
    requires types { length types.now < 2 ^ 32 }
    requires exceptions { length exceptions.now < 2 ^ 32 }
    ensures shape { IfOk result (λ s. shape_view s ≡ meant_call types.now exceptions.now (map param_form_view params.now) (map raise_form_view raises.now)) }
    ensures parts { IfOk result (λ s. parts_view s ≡ map (λ p. p.1.0) (map param_form_view params.now)) }
{
    let numbered = params_of(alloc, types, params)?;
    let raised = raises_of(alloc, types, exceptions, params, raises)?;
    Ok(Shape::CallMessage {
        params: numbered,
        raises: raised,
    })
}
