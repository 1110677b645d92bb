//! The types that each type names.
ghost use Rattle.std.specs.Prelude.{◌≡◌, [], ◌∷◌, IfOk, map, length, ◌&&◌, cond};
ghost use Rattle.herm_model.specs.Types.{named_types};
ghost use Rattle.herm_model.specs.Copyable.{is_composed, is_plain};
ghost use Rattle.herm_types.specs.View.{shape_view, param_view};
ghost use Rattle.herm_types.specs.Chosen.{lists};
ghost use Rattle.herm_graph.specs.Links.{composed_types, path_types};

use herm_types::{Param, Part, Shape};
use std::alloc::{AllocError, Global};

fn part_types(alloc: Global, parts: &[Part]) -> Result<Vec<u32>, AllocError>
    ensures { IfOk result (λ v. v.items ≡ map (λ p. p.of.0) parts.now) }
{
    let mut types = Vec::with_capacity(alloc, parts.len())?;
    for part in parts {
        types.push(part.of.0)?;
    }
    Ok(types)
}

fn param_types(alloc: Global, params: &[Param]) -> Result<Vec<u32>, AllocError>
    ensures { IfOk result (λ v. v.items ≡ map (λ p. p.content) (map param_view params.now)) }
{
    let mut types = Vec::with_capacity(alloc, params.len())?;
    for param in params {
        types.push(param.of.0)?;
    }
    Ok(types)
}

fn one(alloc: Global, t: u32) -> Result<Vec<u32>, AllocError>
    ensures { IfOk result (λ v. v.items ≡ t ∷ []) }
{
    let mut types = Vec::with_capacity(alloc, 1)?;
    types.push(t)?;
    Ok(types)
}

/// The types that a shape names.
pub fn named_types(alloc: Global, shape: &Shape) -> Result<Vec<u32>, AllocError>
    ensures { IfOk result (λ v. v.items ≡ named_types (shape_view shape.now)) }
{
    match shape {
        Shape::Fields(parts) => {
            let types = part_types(alloc, parts.as_slice())?;
            Ok(types)
        }
        Shape::Cases(parts) => {
            let types = part_types(alloc, parts.as_slice())?;
            Ok(types)
        }
        Shape::Rows { row, keys: _ } => {
            let types = one(alloc, row.0)?;
            Ok(types)
        }
        Shape::Inport { message, facts: _ } => {
            let types = one(alloc, message.0)?;
            Ok(types)
        }
        Shape::Outport { port } => {
            let types = one(alloc, port.0)?;
            Ok(types)
        }
        Shape::CallMessage { params, raises: _ } => {
            let types = param_types(alloc, params.as_slice())?;
            Ok(types)
        }
        _ => Ok(Vec::new(alloc)),
    }
}

/// Whether a type of this shape is copyable where all its parts are.
pub fn is_composed(shape: &Shape) -> bool
    ensures { result ≡ is_composed (shape_view shape.now) }
{
    matches!(
        shape,
        Shape::Fields(_) | Shape::Cases(_) | Shape::Rows { row: _, keys: _ }
    )
}

/// Whether values of this shape are one cell and may be copied.
pub fn is_plain(shape: &Shape) -> bool
    ensures { result ≡ is_plain (shape_view shape.now) }
{
    matches!(
        shape,
        Shape::Boolean | Shape::Integer | Shape::Text | Shape::Names(_) | Shape::Outport { port: _ }
    )
}

/// The types of the parts of a copyable shape.
fn composed_types(alloc: Global, shape: &Shape) -> Result<Vec<u32>, AllocError>
    ensures { IfOk result (λ v. v.items ≡ composed_types (shape_view shape.now)) }
{
    if is_composed(shape) {
        let types = named_types(alloc, shape)?;
        return Ok(types);
    }
    Ok(Vec::new(alloc))
}

/// The types that each shape names.
pub fn all_named(alloc: Global, shapes: &[Shape]) -> Result<Vec<Vec<u32>>, AllocError>
    ensures named { IfOk result (λ v. lists v.items ≡ map named_types (map shape_view shapes.now)) }
    ensures each { IfOk result (λ v. length v.items ≡ length shapes.now) }
{
    let mut all = Vec::with_capacity(alloc, shapes.len())?;
    for shape in shapes {
        let types = named_types(alloc, shape)?;
        all.push(types)?;
    }
    Ok(all)
}

/// The types of the parts of each copyable shape.
pub fn all_composed(alloc: Global, shapes: &[Shape]) -> Result<Vec<Vec<u32>>, AllocError>
    ensures composed { IfOk result (λ v. lists v.items ≡ map composed_types (map shape_view shapes.now)) }
    ensures each { IfOk result (λ v. length v.items ≡ length shapes.now) }
{
    let mut all = Vec::with_capacity(alloc, shapes.len())?;
    for shape in shapes {
        let types = composed_types(alloc, shape)?;
        all.push(types)?;
    }
    Ok(all)
}

/// The types of the parts that paths go through.
fn part_links_of(alloc: Global, shape: &Shape) -> Result<Vec<u32>, AllocError>
    ensures { IfOk result (λ v. v.items ≡ path_types (shape_view shape.now)) }
{
    match shape {
        Shape::Fields(parts) => {
            let types = part_types(alloc, parts.as_slice())?;
            Ok(types)
        }
        Shape::Cases(parts) => {
            let types = part_types(alloc, parts.as_slice())?;
            Ok(types)
        }
        Shape::CallMessage { params, raises: _ } => {
            let types = param_types(alloc, params.as_slice())?;
            Ok(types)
        }
        _ => Ok(Vec::new(alloc)),
    }
}

/// The types of the parts of each type that paths go through.
pub fn part_links(alloc: Global, shapes: &[Shape]) -> Result<Vec<Vec<u32>>, AllocError>
    ensures { IfOk result (λ v. lists v.items ≡ map path_types (map shape_view shapes.now)) }
{
    let mut all = Vec::with_capacity(alloc, shapes.len())?;
    for shape in shapes {
        let types = part_links_of(alloc, shape)?;
        all.push(types)?;
    }
    Ok(all)
}
