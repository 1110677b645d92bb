//! The parts of types.
ghost use Rattle.std.specs.Prelude.{◌≡◌, ◌++◌, map, slice_get, IfOk, IsTrue};
ghost use Rattle.herm_model.specs.Lists.{list_of, numbered};
ghost use Rattle.herm_model.specs.Types.{held_parts};
ghost use Rattle.herm_types.specs.View.{param_view};
ghost use Rattle.herm_fronts.specs.Held.{part_view, component_parts, IsPlain};

use crate::numbers::small;
use crate::shapes::shape_of;
use herm_base::TypeNo;
use herm_types::{Param, Part, Shape, TypeTable};
use std::alloc::{AllocError, Global};

/// As many types may stand on the way from a type through those that it names.
pub const GREATEST_DEPTH: u32 = 32;

fn numbered_parts(alloc: Global, parts: &[Part]) -> Result<Vec<(u32, TypeNo)>, AllocError>
    ensures { IfOk result (λ v. map part_view v.items ≡ numbered 0 (map (λ p. p.of.0) parts.now)) }
{
    let mut found = Vec::with_capacity(alloc, parts.len())?;
    'parts: for (place, part) in parts.iter().enumerate() {
        let place = small(place)?;
        found.push((place, part.of))?;
    }
    Ok(found)
}

fn numbered_params(alloc: Global, params: &[Param]) -> Result<Vec<(u32, TypeNo)>, AllocError>
    ensures { IfOk result (λ v. map part_view v.items ≡ numbered 0 (map (λ p. p.content) (map param_view params.now))) }
{
    let mut found = Vec::with_capacity(alloc, params.len())?;
    'params: for (place, param) in params.iter().enumerate() {
        let place = small(place)?;
        found.push((place, param.of))?;
    }
    Ok(found)
}

/// The parts of a type that may hold a value with a fact of its own, by place and type.
pub fn held_parts(
    alloc: Global,
    types: &TypeTable,
    t: TypeNo,
) -> Result<Vec<(u32, TypeNo)>, AllocError>
    ensures { IfOk result (λ v. map part_view v.items ≡ list_of held_parts (slice_get types.now.shapes t.0)) }
{
    match shape_of(types, t) {
        None => Ok(Vec::new(alloc)),
        Some(shape) => match shape {
            Shape::Fields(parts) => numbered_parts(alloc, parts.as_slice()),
            Shape::CallMessage { params, raises: _ } => numbered_params(alloc, params.as_slice()),
            _ => Ok(Vec::new(alloc)),
        },
    }
}

/// Whether a type has neither parts nor components.
pub fn is_plain(types: &TypeTable, t: TypeNo) -> bool
    ensures { IsTrue result → IsPlain (slice_get types.now.shapes t.0) }
{
    match shape_of(types, t) {
        None => true,
        Some(shape) => match shape {
            Shape::Fields(_) => false,
            Shape::CallMessage { .. } => false,
            Shape::Cases(_) => false,
            _ => true,
        },
    }
}

/// The components of a type, by place and type.
pub fn component_parts(
    alloc: Global,
    types: &TypeTable,
    t: TypeNo,
) -> Result<Vec<(u32, TypeNo)>, AllocError>
    ensures { IfOk result (λ v. map part_view v.items ≡ list_of component_parts (slice_get types.now.shapes t.0)) }
{
    match shape_of(types, t) {
        None => Ok(Vec::new(alloc)),
        Some(shape) => match shape {
            Shape::Cases(parts) => numbered_parts(alloc, parts.as_slice()),
            _ => Ok(Vec::new(alloc)),
        },
    }
}
