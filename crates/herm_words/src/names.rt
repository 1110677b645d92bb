//! Names of variables, of parts and of exceptions by number.
ghost use Rattle.std.specs.Prelude.{◌≡◌, map, slice_get, option_map};
ghost use Rattle.herm_model.specs.Types.{part_type, part_of, type_below, type_at};
ghost use Rattle.herm_types.specs.View.{shape_view, parts_view, param_view, path_view};
ghost use Rattle.herm_words.specs.MissingFactWords.{name_at, part_name, variable_names, variable_types};

use herm_base::{TypeNo, Word};
use herm_typed::{TypedProcess, TypedVar};
use herm_types::{Param, Part, Path, Shape, TypeTable};

/// The name at a place. What is not there has the empty text.
pub fn name_at(names: &[Word], at: u32) -> &[u8]
    ensures { result.now ≡ name_at names.now at }
{
    match names.get(at as usize) {
        Some(name) => name.bytes(),
        None => &[],
    }
}

fn field_name(parts: &[Part], at: u32) -> &[u8]
    ensures { result.now ≡ name_at (map (λ p. p.name) parts.now) at }
{
    match parts.get(at as usize) {
        Some(part) => part.name.bytes(),
        None => &[],
    }
}

fn parameter_name(params: &[Param], at: u32) -> &[u8]
    ensures { result.now ≡ name_at (map (λ p. p.name) params.now) at }
{
    match params.get(at as usize) {
        Some(param) => param.name.bytes(),
        None => &[],
    }
}

/// The name of the part at a place of a shape.
fn name_in(shape: &Shape, at: u32) -> &[u8]
    ensures { result.now ≡ name_at (parts_view shape.now) at }
{
    match shape {
        Shape::Names(names) => name_at(names.as_slice(), at),
        Shape::Fields(parts) => field_name(parts.as_slice(), at),
        Shape::Cases(parts) => field_name(parts.as_slice(), at),
        Shape::CallMessage { params, raises: _ } => parameter_name(params.as_slice(), at),
        _ => &[],
    }
}

/// The name of the part at a place of a type.
pub fn part_name(types: &TypeTable, t: Option<TypeNo>, at: u32) -> &[u8]
    ensures { result.now ≡ part_name types.now (option_map (λ t. t.0) t) at }
{
    let Some(t) = t else {
        return &[];
    };
    types.keeps();
    if t.0 as usize >= types.len() {
        return &[];
    }
    let name = name_in(types.shape(t), at);
    name
}

fn field_type(parts: &[Part], at: u32) -> Option<TypeNo>
    ensures { option_map (λ t. t.0) result ≡ slice_get (map (λ p. p.of.0) parts.now) at }
{
    match parts.get(at as usize) {
        Some(part) => Some(part.of),
        None => None,
    }
}

fn parameter_type(params: &[Param], at: u32) -> Option<TypeNo>
    ensures { option_map (λ t. t.0) result ≡ option_map (λ p. p.content) (slice_get (map param_view params.now) at) }
{
    match params.get(at as usize) {
        Some(param) => Some(param.of),
        None => None,
    }
}

/// The type of the part at a place of a shape.
fn type_in(shape: &Shape, at: u32) -> Option<TypeNo>
    ensures { option_map (λ t. t.0) result ≡ part_type (shape_view shape.now) at }
{
    match shape {
        Shape::Fields(parts) => field_type(parts.as_slice(), at),
        Shape::Cases(parts) => field_type(parts.as_slice(), at),
        Shape::CallMessage { params, raises: _ } => parameter_type(params.as_slice(), at),
        _ => None,
    }
}

/// The type of the part at a place of a type.
pub fn part_of(types: &TypeTable, t: Option<TypeNo>, at: u32) -> Option<TypeNo>
    ensures { option_map (λ t. t.0) result ≡ part_of types.now.shapes (option_map (λ t. t.0) t) at }
{
    let Some(t) = t else {
        return None;
    };
    if t.0 as usize >= types.len() {
        return None;
    }
    let part = type_in(types.shape(t), at);
    part
}

/// The name of a variable.
pub fn variable_name(p: &TypedProcess, v: u32) -> &[u8]
    ensures { result.now ≡ name_at (variable_names p.now) v }
{
    let vars: &[TypedVar] = p.vars.as_slice();
    match vars.get(v as usize) {
        Some(var) => var.name.text.bytes(),
        None => &[],
    }
}

/// The type of a variable.
pub fn variable_type(p: &TypedProcess, v: u32) -> Option<TypeNo>
    ensures { option_map (λ t. t.0) result ≡ slice_get (variable_types p.now) v }
{
    let vars: &[TypedVar] = p.vars.as_slice();
    match vars.get(v as usize) {
        Some(var) => Some(var.of),
        None => None,
    }
}

/// The type behind these steps from a type.
fn type_below(types: &TypeTable, t: Option<TypeNo>, steps: &[u32]) -> Option<TypeNo>
    ensures { option_map (λ t. t.0) result ≡ type_below types.now.shapes (option_map (λ t. t.0) t) steps.now }
{
    match steps.split_first() {
        None => t,
        Some((step, rest)) => {
            let below = type_below(types, part_of(types, t, *step), rest);
            below
        }
    }
}

/// The type at a path.
pub fn type_at(types: &TypeTable, p: &TypedProcess, path: &Path) -> Option<TypeNo>
    ensures { option_map (λ t. t.0) result ≡ type_at types.now.shapes (variable_types p.now) (path_view path.now) }
{
    let t = variable_type(p, path.var.0);
    let found = type_below(types, t, path.parts.as_slice());
    found
}
