//! The types of a process's variables, and of the values at paths.
ghost use Rattle.std.specs.Prelude.{◌≡◌, slice_get};
ghost use Rattle.herm_model.specs.Types.{part_of, part_type, type_below, type_at};
ghost use Rattle.herm_types.specs.View.{path_view, shape_view};
ghost use Rattle.herm_fronts.specs.Frames.{kind, kinds, table_of, variables_of};

use herm_base::TypeNo;
use herm_types::{Path, Shape, TypeTable};

/// The types, and those of a process's variables, the port first.
#[derive(Clone, Copy)]
pub struct Frame<'a> {
    pub types: &'a TypeTable,
    pub of: &'a [TypeNo],
}

/// The type of the part at a place.
fn type_of_part(shape: &Shape, place: usize) -> Option<TypeNo>
    ensures { kind result ≡ part_type (shape_view shape.now) place }
{
    match shape {
        Shape::Fields(parts) => parts.get(place).map(|part| part.of),
        Shape::Cases(parts) => parts.get(place).map(|part| part.of),
        Shape::CallMessage { params, raises: _ } => params.get(place).map(|param| param.of),
        _ => None,
    }
}

/// The type of the part at a place of a type.
fn part_of(types: &TypeTable, t: Option<TypeNo>, place: u32) -> Option<TypeNo>
    ensures { kind result ≡ part_of types.now.shapes (kind t) place }
{
    let t = match t {
        Some(t) => t,
        None => return None,
    };
    if t.0 as usize >= types.len() {
        return None;
    }
    type_of_part(types.shape(t), place as usize)
}

/// The type at the end of these steps from a type.
fn type_below(types: &TypeTable, t: Option<TypeNo>, parts: &[u32]) -> Option<TypeNo>
    ensures { kind result ≡ type_below types.now.shapes (kind t) parts.now }
{
    let mut at = t;
    'parts: for part in parts {
        at = part_of(types, at, *part);
    }
    at
}

/// The type of the variable at a place.
fn variable_type(of: &[TypeNo], place: u32) -> Option<TypeNo>
    ensures { kind result ≡ slice_get (kinds of.now) place }
{
    of.get(place as usize).copied()
}

/// The type of the value at a path.
pub fn type_of(frame: &Frame, p: &Path) -> Option<TypeNo>
    ensures { kind result ≡ type_at (table_of frame.now) (variables_of frame.now) (path_view p.now) }
{
    let first = variable_type(frame.of, p.var.0);
    type_below(frame.types, first, p.parts.as_slice())
}
