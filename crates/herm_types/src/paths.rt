//! Paths within types.
ghost use Rattle.std.specs.Prelude.{◌≡◌, ◌<◌, ◌^◌, ◌++◌, [], ◌∷◌, IfOk, OnOk, map, length, IsTrue, IfSome};
ghost use Rattle.herm_model.specs.Lists.{numbered};
ghost use Rattle.herm_model.specs.Types.{all_parts, full_parts, filled, part_paths_within, is_within_depth};
ghost use Rattle.herm_types.specs.View.{shape_view, param_view};
ghost use Rattle.herm_types.specs.Table.{shapes_view};
ghost use Rattle.herm_types.specs.Chosen.{chosen, part_seen, lists, width, FewParts, IsShallow, paths_through};

use crate::shape::{Mode, Param, Part, Shape};
use herm_base::TypeNo;
use std::alloc::{AllocError, Global};

/// As many types may stand on the way from a type through those that it names.
pub const GREATEST_DEPTH: u32 = 32;

/// Which parts of a shape are gone through: all, or those that a full value has with facts of their own.
#[derive(Clone, Copy)]
pub enum Choice {
    All,
    Full,
}

fn numbered_parts(alloc: Global, parts: &[Part]) -> Result<Vec<(u32, TypeNo)>, AllocError>
    requires { length parts.now < 2 ^ 32 }
    ensures { IfOk result (λ v. map part_seen v.items ≡ numbered 0 (map (λ p. p.of.0) parts.now)) }
{
    let mut seen = Vec::new(alloc);
    for (place, part) in parts.iter().enumerate() {
        seen.push((place as u32, part.of))?;
    }
    Ok(seen)
}

fn numbered_params(alloc: Global, params: &[Param]) -> Result<Vec<(u32, TypeNo)>, AllocError>
    requires { length params.now < 2 ^ 32 }
    ensures { IfOk result (λ v. map part_seen v.items ≡ numbered 0 (map (λ p. p.content) (map param_view params.now))) }
{
    let mut seen = Vec::new(alloc);
    for (place, param) in params.iter().enumerate() {
        seen.push((place as u32, param.of))?;
    }
    Ok(seen)
}

/// The parameters that a caller fills.
fn filled_params(alloc: Global, params: &[Param]) -> Result<Vec<(u32, TypeNo)>, AllocError>
    requires { length params.now < 2 ^ 32 }
    ensures { IfOk result (λ v. map part_seen v.items ≡ filled 0 (map param_view params.now)) }
{
    let mut seen = Vec::new(alloc);
    for (place, param) in params.iter().enumerate() {
        if !matches!(param.mode, Mode::Out) {
            seen.push((place as u32, param.of))?;
        }
    }
    Ok(seen)
}

fn all_of(alloc: Global, shape: &Shape) -> Result<Vec<(u32, TypeNo)>, AllocError>
    requires { width shape.now < 2 ^ 32 }
    ensures { IfOk result (λ v. map part_seen v.items ≡ all_parts (shape_view shape.now)) }
{
    match shape {
        Shape::Fields(parts) => {
            let seen = numbered_parts(alloc, parts.as_slice())?;
            Ok(seen)
        }
        Shape::Cases(parts) => {
            let seen = numbered_parts(alloc, parts.as_slice())?;
            Ok(seen)
        }
        Shape::CallMessage { params, raises: _ } => {
            let seen = numbered_params(alloc, params.as_slice())?;
            Ok(seen)
        }
        _ => Ok(Vec::new(alloc)),
    }
}

fn full_of(alloc: Global, shape: &Shape) -> Result<Vec<(u32, TypeNo)>, AllocError>
    requires { width shape.now < 2 ^ 32 }
    ensures { IfOk result (λ v. map part_seen v.items ≡ full_parts (shape_view shape.now)) }
{
    match shape {
        Shape::Fields(parts) => {
            let seen = numbered_parts(alloc, parts.as_slice())?;
            Ok(seen)
        }
        Shape::CallMessage { params, raises: _ } => {
            let seen = filled_params(alloc, params.as_slice())?;
            Ok(seen)
        }
        _ => Ok(Vec::new(alloc)),
    }
}

/// The parts of a shape that are gone through, by place and type.
fn parts_of(alloc: Global, choice: Choice, shape: &Shape) -> Result<Vec<(u32, TypeNo)>, AllocError>
    requires { width shape.now < 2 ^ 32 }
    ensures { IfOk result (λ v. map part_seen v.items ≡ chosen choice (shape_view shape.now)) }
{
    match choice {
        Choice::All => {
            let seen = all_of(alloc, shape)?;
            Ok(seen)
        }
        Choice::Full => {
            let seen = full_of(alloc, shape)?;
            Ok(seen)
        }
    }
}

/// Appends the paths that begin with a path and go on from a type through chosen parts, parents first.
fn walk(
    alloc: Global,
    shapes: &[Shape],
    choice: Choice,
    depth: u32,
    t: TypeNo,
    at: &mut Vec<u32>,
    out: &mut Vec<Vec<u32>>,
) -> Result<(), AllocError>
    requires within { IsTrue (is_within_depth depth (shapes_view shapes.now) t.0) }
    requires few { FewParts shapes.now }
    ensures at { OnOk result (at.new.items ≡ at.old.items) }
    ensures out { OnOk result (lists out.new.items ≡ lists out.old.items ++ map (at.old.items ++◌) (part_paths_within (chosen choice) depth (shapes_view shapes.now) t.0)) }
{
    let step = Vec::from_slice(alloc, at.as_slice())?;
    out.push(step)?;
    let parts = parts_of(alloc, choice, &shapes[t.0 as usize])?;
    for part in parts.as_slice() {
        at.push(part.0)?;
        walk(alloc, shapes, choice, depth - 1, part.1, at, out)?;
        at.pop();
    }
    Ok(())
}

/// The paths that begin with a path and go on from a type through chosen parts, parents first.
pub fn paths_from(
    alloc: Global,
    shapes: &[Shape],
    choice: Choice,
    t: TypeNo,
    from: &[u32],
) -> Result<Vec<Vec<u32>>, AllocError>
    requires within { IsShallow (shapes_view shapes.now) t.0 }
    requires few { FewParts shapes.now }
    ensures { IfOk result (λ v. lists v.items ≡ map (from.now ++◌) (paths_through choice (shapes_view shapes.now) t.0)) }
{
    let mut at = Vec::from_slice(alloc, from)?;
    let mut out = Vec::new(alloc);
    walk(alloc, shapes, choice, GREATEST_DEPTH, t, &mut at, &mut out)?;
    Ok(out)
}
