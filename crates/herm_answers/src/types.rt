//! The types of what is at paths.
ghost use Rattle.std.specs.Prelude.{◌≡◌, map, option_and_then, option_map, slice_get};
ghost use Rattle.herm_model.specs.Calls.{parameters_of, shape_at};
ghost use Rattle.herm_model.specs.Lists.{list_of};
ghost use Rattle.herm_model.specs.Types.{part_of, part_type, type_at, type_below};
ghost use Rattle.herm_frames.specs.Scopes.{number_of, numbers_of};
ghost use Rattle.herm_types.specs.View.{param_view, path_view, shape_view};

use herm_base::TypeNo;
use herm_types::{Param, Path, Shape, TypeTable};

/// The type of the part at a place of a shape.
fn part_type(shape: &Shape, place: usize) -> Option<TypeNo>
    ensures of { number_of result ≡ part_type (shape_view shape.now) place }
{
    match shape {
        Shape::Fields(parts) => parts.get(place).map(|part| part.of),
        Shape::Cases(parts) => parts.get(place).map(|part| part.of),
        Shape::CallMessage { params, raises: _ } => params.get(place).map(|param| param.of),
        _ => None,
    }
}

/// The shape of a type, where there is one.
fn shape_of(types: &TypeTable, t: Option<TypeNo>) -> Option<&Shape>
    ensures shape { option_map (λ s. shape_view s.now) result ≡ option_and_then (slice_get types.now.shapes) (number_of t) }
{
    let Some(t) = t else {
        return None;
    };
    if t.0 as usize >= types.len() {
        return None;
    }
    Some(types.shape(t))
}

/// The type of the part at a place of a type, where there is one.
fn part_of(types: &TypeTable, t: Option<TypeNo>, place: u32) -> Option<TypeNo>
    ensures of { number_of result ≡ part_of types.now.shapes (number_of t) place }
{
    let Some(shape) = shape_of(types, t) else {
        return None;
    };
    part_type(shape, place as usize)
}

/// The type at the end of these steps from a type.
fn type_below(types: &TypeTable, t: Option<TypeNo>, parts: &[u32]) -> Option<TypeNo>
    ensures of { number_of result ≡ type_below types.now.shapes (number_of t) parts.now }
{
    let mut at = t;
    'parts: for part in parts {
        at = part_of(types, at, *part);
    }
    at
}

/// The type of the variable at a place.
fn variable_type(variables: &[TypeNo], place: u32) -> Option<TypeNo>
    ensures of { number_of result ≡ slice_get (numbers_of variables.now) place }
{
    variables.get(place as usize).copied()
}

/// The type of what is at a path, where variables have these types.
fn type_at(types: &TypeTable, variables: &[TypeNo], path: &Path) -> Option<TypeNo>
    ensures of { number_of result ≡ type_at types.now.shapes (numbers_of variables.now) (path_view path.now) }
{
    let first = variable_type(variables, path.var.0);
    type_below(types, first, path.parts.as_slice())
}

/// The parameters of the callmessage at a path, none where something else is there.
pub fn parameters_at<'i>(types: &'i TypeTable, variables: &[TypeNo], path: &Path) -> &'i [Param]
    ensures parameters { map param_view result.now ≡ list_of parameters_of (shape_at types.now.shapes (numbers_of variables.now) (path_view path.now)) }
{
    match shape_of(types, type_at(types, variables, path)) {
        None => &[],
        Some(shape) => match shape {
            Shape::CallMessage { params, raises: _ } => params.as_slice(),
            _ => &[],
        },
    }
}
