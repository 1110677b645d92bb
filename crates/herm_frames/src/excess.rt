//! What a value that moves away holds beyond a full one.
ghost use Rattle.std.specs.Prelude.{◌≡◌, ◌<◌, ◌^◌, ◌++◌, ◌∷◌, [], IfOk, OnOk, ◌||◌, flat_map, map, length, suc, ⊤};
ghost use Rattle.herm_model.specs.Lists.{any_pass};
ghost use Rattle.herm_model.specs.Values.{has_value};
ghost use Rattle.herm_forms.specs.Excess.{excess_over_full};
ghost use Rattle.herm_forms.specs.Frames.{Frame as ModelFrame};
ghost use Rattle.herm_forms.specs.Modules.{Module};
ghost use Rattle.herm_frames.specs.Scopes.{numbers_of};
ghost use Rattle.herm_types.specs.View.{shape_view, param_view, mode_view, path_view};
ghost use Rattle.herm_places.specs.Held.{seen_places};
ghost use Rattle.herm_frames.specs.Excesses.{is_out, may_hold_more, may_exceed, beyond, beyond_fields, beyond_parameters, if_here, if_here_within, of_mode};

use crate::types::type_at;
use herm_base::TypeNo;
use herm_places::Variables;
use herm_types::{Mode, Param, Part, Path, Shape, TypeTable};
use std::alloc::{AllocError, Global};

fn is_out(mode: Mode) -> bool
    ensures { result ≡ is_out (mode_view mode) }
{
    match mode {
        Mode::In => false,
        Mode::Inout => false,
        Mode::Out => true,
    }
}

/// Whether values of a type may hold more than full ones, where so many types are looked at on the way. It takes no memory.
#[cycle(exceeding)]
pub fn may_exceed(types: &TypeTable, depth: u32, t: TypeNo) -> bool
    ensures { result ≡ may_exceed types.now.shapes depth t.0 }
{
    if depth == 0 {
        return false;
    }
    if t.0 as usize >= types.len() {
        return true;
    }
    match types.shape(t) {
        Shape::Fields(parts) => fields_may_exceed(types, depth - 1, parts.as_slice()),
        Shape::CallMessage { params, raises: _ } => {
            params_may_exceed(types, depth - 1, params.as_slice())
        }
        _ => false,
    }
}

#[cycle(exceeding)]
fn fields_may_exceed(types: &TypeTable, depth: u32, parts: &[Part]) -> bool
    ensures { result ≡ any_pass (may_exceed types.now.shapes depth) (map (λ p. p.of.0) parts.now) }
{
    'parts: for part in parts {
        if may_exceed(types, depth, part.of) {
            return true;
        }
    }
    false
}

#[cycle(exceeding)]
fn params_may_exceed(types: &TypeTable, depth: u32, params: &[Param]) -> bool
    ensures { result ≡ any_pass (λ x. is_out x.mode || may_exceed types.now.shapes depth x.content) (map param_view params.now) }
{
    'params: for param in params {
        if is_out(param.mode) || may_exceed(types, depth, param.of) {
            return true;
        }
    }
    false
}

/// The path with one more step.
fn longer(alloc: Global, p: &Path, step: u32) -> Result<Path, AllocError>
    ensures { IfOk result (λ q. path_view q ≡ path_view p.now ++ step ∷ []) }
{
    let mut parts = Vec::with_capacity(alloc, p.parts.len() + 1)?;
    parts.extend_from_slice(p.parts.as_slice())?;
    parts.push(step)?;
    Ok(Path { var: p.var, parts })
}

/// The same path.
fn same(alloc: Global, p: &Path) -> Result<Path, AllocError>
    ensures { IfOk result (λ q. path_view q ≡ path_view p.now) }
{
    let parts = Vec::from_slice(alloc, p.parts.as_slice())?;
    Ok(Path { var: p.var, parts })
}

/// The number of the next place. Places are of 32 bits.
fn next_place(place: u32) -> Result<u32, AllocError>
    ensures { IfOk result (λ n. n ≡ suc place) }
{
    match place.checked_add(1) {
        Some(n) => Ok(n),
        None => Err(AllocError),
    }
}

/// Appends the path, where there is a value at it.
fn push_itself(
    alloc: Global,
    variables: &Variables,
    p: &Path,
    out: &mut Vec<Path>,
) -> Result<(), AllocError>
    ensures { OnOk result (map path_view out.new.items ≡ map path_view out.old.items ++ if_here (has_value (seen_places variables.now)) (path_view p.now)) }
{
    if variables.at(p).is_none() {
        return Ok(());
    }
    let q = same(alloc, p)?;
    out.push(q)?;
    Ok(())
}

/// Appends the paths of out parameters in the value at a path, of this type, at which there are values, down to so many types.
#[cycle(beyond)]
fn push_beyond(
    alloc: Global,
    types: &TypeTable,
    variables: &Variables,
    depth: u32,
    p: &Path,
    t: TypeNo,
    out: &mut Vec<Path>,
) -> Result<(), AllocError>
    ensures { OnOk result (map path_view out.new.items ≡ map path_view out.old.items ++ beyond (has_value (seen_places variables.now)) types.now.shapes depth (path_view p.now) t.0) }
{
    if depth == 0 {
        return Ok(());
    }
    if t.0 as usize >= types.len() {
        push_itself(alloc, variables, p, out)?;
        return Ok(());
    }
    match types.shape(t) {
        Shape::Fields(parts) => {
            push_fields(alloc, types, variables, depth - 1, p, parts.as_slice(), out)?;
            return Ok(());
        }
        Shape::CallMessage { params, raises: _ } => {
            push_params(
                alloc,
                types,
                variables,
                depth - 1,
                p,
                params.as_slice(),
                out,
            )?;
            return Ok(());
        }
        _ => return Ok(()),
    }
}

/// The same of the fields.
#[cycle(beyond)]
fn push_fields(
    alloc: Global,
    types: &TypeTable,
    variables: &Variables,
    depth: u32,
    p: &Path,
    parts: &[Part],
    out: &mut Vec<Path>,
) -> Result<(), AllocError>
    ensures { OnOk result (map path_view out.new.items ≡ map path_view out.old.items ++ beyond_fields (beyond (has_value (seen_places variables.now)) types.now.shapes depth) (path_view p.now) 0 (map (λ f. f.of.0) parts.now)) }
{
    let mut place = 0;
    'fields: for part in parts {
        let q = longer(alloc, p, place)?;
        push_beyond(alloc, types, variables, depth, &q, part.of, out)?;
        place = next_place(place)?;
    }
    Ok(())
}

/// The same of the parameters.
#[cycle(beyond)]
fn push_params(
    alloc: Global,
    types: &TypeTable,
    variables: &Variables,
    depth: u32,
    p: &Path,
    params: &[Param],
    out: &mut Vec<Path>,
) -> Result<(), AllocError>
    ensures { OnOk result (map path_view out.new.items ≡ map path_view out.old.items ++ beyond_parameters (has_value (seen_places variables.now)) depth (beyond (has_value (seen_places variables.now)) types.now.shapes depth) (path_view p.now) 0 (map param_view params.now)) }
{
    let mut place = 0;
    'params: for param in params {
        let q = longer(alloc, p, place)?;
        push_param(alloc, types, variables, depth, &q, param, out)?;
        place = next_place(place)?;
    }
    Ok(())
}

/// The same of one parameter, which is at this path.
#[cycle(beyond)]
fn push_param(
    alloc: Global,
    types: &TypeTable,
    variables: &Variables,
    depth: u32,
    q: &Path,
    param: &Param,
    out: &mut Vec<Path>,
) -> Result<(), AllocError>
    ensures { OnOk result (map path_view out.new.items ≡ map path_view out.old.items ++ of_mode (beyond (has_value (seen_places variables.now)) types.now.shapes depth (path_view q.now) param.now.of.0) (if_here_within (has_value (seen_places variables.now)) depth (path_view q.now)) (mode_view param.now.mode)) }
{
    match param.mode {
        Mode::In => {
            push_beyond(alloc, types, variables, depth, q, param.of, out)?;
            Ok(())
        }
        Mode::Inout => {
            push_beyond(alloc, types, variables, depth, q, param.of, out)?;
            Ok(())
        }
        Mode::Out => {
            if depth == 0 {
                return Ok(());
            }
            push_itself(alloc, variables, q, out)?;
            Ok(())
        }
    }
}

/// As many types may be looked at on the way.
const GREATEST_DEPTH: u32 = 32;

/// The paths of what the value at a path holds beyond a full one, where the variables have these types. It takes no memory where
/// the value cannot hold more.
pub fn excess_over_full(
    alloc: Global,
    types: &TypeTable,
    of: &[TypeNo],
    variables: &Variables,
    path: &Path,
) -> Result<Vec<Path>, AllocError>
    ensures { IfOk result (λ lost. (c : Module) (s : ModelFrame ⊤) → c.types ≡ types.now.shapes → c.variables ≡ numbers_of of.now → s.variables ≡ seen_places variables.now → map path_view lost.items ≡ excess_over_full c (path_view path.now) s) }
{
    let mut lost = Vec::new(alloc);
    let Some(_held) = variables.at(path) else {
        return Ok(lost);
    };
    let Some(t) = type_at(types, of, path) else {
        return Ok(lost);
    };
    if !may_exceed(types, GREATEST_DEPTH, t) {
        return Ok(lost);
    }
    push_beyond(alloc, types, variables, GREATEST_DEPTH, path, t, &mut lost)?;
    Ok(lost)
}

/// Appends the paths of what the values at these paths hold beyond full ones.
pub fn push_excess(
    alloc: Global,
    types: &TypeTable,
    of: &[TypeNo],
    variables: &Variables,
    paths: &[Path],
    out: &mut Vec<Path>,
) -> Result<(), AllocError>
    ensures { OnOk result ((c : Module) (s : ModelFrame ⊤) → c.types ≡ types.now.shapes → c.variables ≡ numbers_of of.now → s.variables ≡ seen_places variables.now → map path_view out.new.items ≡ map path_view out.old.items ++ flat_map (λ p. excess_over_full c p s) (map path_view paths.now)) }
{
    let Some((first, rest)) = paths.split_first() else {
        return Ok(());
    };
    let mut lost = excess_over_full(alloc, types, of, variables, first)?;
    out.append(&mut lost)?;
    push_excess(alloc, types, of, variables, rest, out)?;
    Ok(())
}
