//! The types of variables, of what is in them, and of the callmessages of outports.
ghost use Rattle.std.specs.Prelude.{◌≡◌, option_and_then, slice_get};
ghost use Rattle.herm_model.specs.Calls.{inport_at, led_to, message_type};
ghost use Rattle.herm_model.specs.Types.{part_type, part_of, type_below, type_at};
ghost use Rattle.herm_types.specs.View.{shape_view, path_view};
ghost use Rattle.herm_frames.specs.Scopes.{number_of, numbers_of};

use herm_base::TypeNo;
use herm_types::{Path, Shape, TypeTable};

/// The type of the part at a place of a shape.
fn part_type(shape: &Shape, place: usize) -> Option<TypeNo>
    ensures of { number_of result ≡ part_type (shape_view shape.now) place }
{
    match shape {
        Shape::Fields(parts) => parts.get(place).map(|part| part.of),
        Shape::Cases(parts) => parts.get(place).map(|part| part.of),
        Shape::CallMessage { params, raises: _ } => params.get(place).map(|param| param.of),
        _ => None,
    }
}

/// The type of the part at a place of a type, where there is one.
fn part_of(types: &TypeTable, t: Option<TypeNo>, place: u32) -> Option<TypeNo>
    ensures of { number_of result ≡ part_of types.now.shapes (number_of t) place }
{
    let t = match t {
        Some(t) => t,
        None => return None,
    };
    if t.0 as usize >= types.len() {
        return None;
    }
    part_type(types.shape(t), place as usize)
}

/// The type at the end of these steps from a type.
fn type_below(types: &TypeTable, t: Option<TypeNo>, parts: &[u32]) -> Option<TypeNo>
    ensures of { number_of result ≡ type_below types.now.shapes (number_of t) parts.now }
{
    let mut at = t;
    'parts: for part in parts {
        at = part_of(types, at, *part);
    }
    at
}

/// The type of the variable at a place.
fn variable_type(variables: &[TypeNo], place: u32) -> Option<TypeNo>
    ensures of { number_of result ≡ slice_get (numbers_of variables.now) place }
{
    variables.get(place as usize).copied()
}

/// The type of what is at a path.
pub fn type_at(types: &TypeTable, variables: &[TypeNo], path: &Path) -> Option<TypeNo>
    ensures of { number_of result ≡ type_at types.now.shapes (numbers_of variables.now) (path_view path.now) }
{
    let first = variable_type(variables, path.var.0);
    type_below(types, first, path.parts.as_slice())
}

/// The inport type to which an outport type leads.
fn led_to(types: &TypeTable, t: Option<TypeNo>) -> Option<TypeNo>
    ensures of { number_of result ≡ option_and_then led_to (option_and_then (slice_get types.now.shapes) (number_of t)) }
{
    let t = match t {
        Some(t) => t,
        None => return None,
    };
    if t.0 as usize >= types.len() {
        return None;
    }
    match types.shape(t) {
        Shape::Outport { port } => Some(*port),
        _ => None,
    }
}

/// The type of an inport type's messages.
fn message_type(types: &TypeTable, t: Option<TypeNo>) -> Option<TypeNo>
    ensures of { number_of result ≡ option_and_then message_type (option_and_then (slice_get types.now.shapes) (number_of t)) }
{
    let t = match t {
        Some(t) => t,
        None => return None,
    };
    if t.0 as usize >= types.len() {
        return None;
    }
    match types.shape(t) {
        Shape::Inport { message, .. } => Some(*message),
        _ => None,
    }
}

/// The type of the messages that the outport at a path takes.
pub fn message_at(types: &TypeTable, variables: &[TypeNo], path: &Path) -> Option<TypeNo>
    ensures of { number_of result ≡ option_and_then message_type (option_and_then (slice_get types.now.shapes) (inport_at types.now.shapes (numbers_of variables.now) (path_view path.now))) }
{
    let outport = type_at(types, variables, path);
    let inport = led_to(types, outport);
    message_type(types, inport)
}
