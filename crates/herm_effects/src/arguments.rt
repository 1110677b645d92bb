//! The paths among the arguments of a call, and the parameters of a callmessage that come back.
ghost use Rattle.std.specs.Prelude.{◌≡◌, ◌++◌, ◌∷◌, [], IfOk, OnOk, map, option_map, flat_map, slice_get};
ghost use Rattle.herm_model.specs.Calls as model;
ghost use Rattle.herm_types.specs.View.{path_view, mode_view, param_view, raise_decl_view};
ghost use Rattle.herm_typed.specs.View.{typed_atom_view};
ghost use Rattle.herm_effects.specs.Rows.{goes};

use crate::paths::part_at;
use crate::reads::push_atom;
use herm_base::ExcNo;
use herm_typed::TypedAtom;
use herm_types::{Mode, Param, Path, RaiseDecl};
use std::alloc::{AllocError, Global};

/// Which way a value of an argument goes: to the callee, or back to the caller.
#[derive(Clone, Copy)]
pub enum Way {
    Given,
    Returned,
}

/// Whether a parameter's value goes to the callee.
fn is_given(mode: Mode) -> bool
    ensures { result ≡ model.is_given (mode_view mode) }
{
    match mode {
        Mode::In => true,
        Mode::Inout => true,
        Mode::Out => false,
    }
}

/// Whether a parameter's value comes back.
fn is_returned(mode: Mode) -> bool
    ensures { result ≡ model.is_returned (mode_view mode) }
{
    match mode {
        Mode::In => false,
        Mode::Inout => true,
        Mode::Out => true,
    }
}

/// Whether an argument of this mode goes the way.
fn goes(way: Way, mode: Mode) -> bool
    ensures { result ≡ goes way (mode_view mode) }
{
    match way {
        Way::Given => is_given(mode),
        Way::Returned => is_returned(mode),
    }
}

/// Appends the path of an argument that goes the way.
fn push_argument(
    alloc: Global,
    way: Way,
    param: &Param,
    argument: &TypedAtom,
    out: &mut Vec<Path>,
) -> Result<(), AllocError>
    ensures { OnOk result (map path_view out.new.items ≡ map path_view out.old.items ++ model.arguments_by (goes way) (param_view param.now ∷ []) (typed_atom_view argument.now ∷ [])) }
{
    if !goes(way, param.mode) {
        return Ok(());
    }
    push_atom(alloc, argument, out)?;
    Ok(())
}

/// Appends the paths among the arguments that go the way, in order.
#[tactic(auto, using(crate::proofs::Passed::arguments_next))]
pub fn push_arguments(
    alloc: Global,
    way: Way,
    params: &[Param],
    arguments: &[TypedAtom],
    out: &mut Vec<Path>,
) -> Result<(), AllocError>
    ensures { OnOk result (map path_view out.new.items ≡ map path_view out.old.items ++ model.arguments_by (goes way) (map param_view params.now) (map typed_atom_view arguments.now)) }
{
    let mut rest = arguments;
    'params: for param in params {
        match rest.split_first() {
            None => return Ok(()),
            Some((argument, others)) => {
                push_argument(alloc, way, param, argument, out)?;
                rest = others;
            }
        }
    }
    Ok(())
}

/// The places of the parameters that are kept at an exception.
pub fn kept_for(raises: &[RaiseDecl], e: ExcNo) -> &[u32]
    ensures { result.now ≡ model.kept_for (map raise_decl_view raises.now) e.0 }
{
    'raises: for raise in raises {
        if raise.exc.0 == e.0 {
            return raise.keeps.as_slice();
        }
    }
    &[]
}

/// The argument at a place.
fn argument_at(arguments: &[TypedAtom], place: u32) -> Option<&TypedAtom>
    ensures { option_map (λ a. typed_atom_view a.now) result ≡ slice_get (map typed_atom_view arguments.now) place }
{
    arguments.get(place as usize)
}

/// Appends the path of the argument at a place, where it is one.
#[tactic(auto, using(crate::proofs::Passed::path_alone))]
fn push_argument_at(
    alloc: Global,
    arguments: &[TypedAtom],
    place: u32,
    out: &mut Vec<Path>,
) -> Result<(), AllocError>
    ensures { OnOk result (map path_view out.new.items ≡ map path_view out.old.items ++ model.argument_path (slice_get (map typed_atom_view arguments.now) place)) }
{
    match argument_at(arguments, place) {
        None => Ok(()),
        Some(argument) => {
            push_atom(alloc, argument, out)?;
            Ok(())
        }
    }
}

/// Appends the paths of the arguments at these places.
pub fn push_arguments_at(
    alloc: Global,
    arguments: &[TypedAtom],
    places: &[u32],
    out: &mut Vec<Path>,
) -> Result<(), AllocError>
    ensures { OnOk result (map path_view out.new.items ≡ map path_view out.old.items ++ flat_map (λ i. model.argument_path (slice_get (map typed_atom_view arguments.now) i)) places.now) }
{
    for place in places {
        push_argument_at(alloc, arguments, *place, out)?;
    }
    Ok(())
}

/// The places of the parameters that come back.
pub fn returned_places(alloc: Global, params: &[Param]) -> Result<Vec<u32>, AllocError>
    ensures { IfOk result (λ v. v.items ≡ model.returned_places 0 (map param_view params.now)) }
{
    let mut found = Vec::new(alloc);
    for (i, param) in params.iter().enumerate() {
        // No memory holds more parameters than there are numbers of 32 bits.
        let Ok(place) = u32::try_from(i) else {
            return Err(AllocError);
        };
        if is_returned(param.mode) {
            found.push(place)?;
        }
    }
    Ok(found)
}

/// The parameters at these places of the callmessage at a path.
pub fn parts_at(alloc: Global, m: &Path, places: &[u32]) -> Result<Vec<Path>, AllocError>
    ensures { IfOk result (λ v. map path_view v.items ≡ map (λ i. path_view m.now ++ i ∷ []) places.now) }
{
    let mut found = Vec::new(alloc);
    for place in places {
        let part = part_at(alloc, m, *place)?;
        found.push(part)?;
    }
    Ok(found)
}
