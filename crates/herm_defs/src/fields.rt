//! Paths of names through record fields.
ghost use Rattle.std.specs.Prelude.{◌≡◌, ◌<◌, ◌^◌, IfOk, map, length, option_map};
ghost use Rattle.std.specs.Str.{bytes_eq};
ghost use Rattle.std.specs.List.{position};
ghost use Rattle.herm_syntax.specs.View.{name_view};
ghost use Rattle.herm_types.specs.View.{shape_view, parts_view};
ghost use Rattle.herm_meaning.specs.Walks.{place_of, walk, walk_fields};
ghost use Rattle.herm_defs.specs.Steps.{end_of, field_at, step_from, part_seen};

use herm_base::{Name, TypeNo, Word};
use herm_types::{Param, Part, Shape, TypeTable};
use std::alloc::{AllocError, Global};

fn find_part(parts: &[Part], name: &[u8]) -> Option<usize>
    ensures { result ≡ position (λ p. bytes_eq name.now p.name) parts.now }
{
    parts.iter().position(|part| name == part.name.bytes())
}

fn place_of_part(parts: &[Part], name: &[u8]) -> usize
    ensures { result ≡ place_of (map (λ p. p.name) parts.now) name.now }
{
    match find_part(parts, name) {
        Some(place) => place,
        None => parts.len(),
    }
}

fn find_param(params: &[Param], name: &[u8]) -> Option<usize>
    ensures { result ≡ position (λ p. bytes_eq name.now p.name) params.now }
{
    params.iter().position(|param| name == param.name.bytes())
}

fn place_of_param(params: &[Param], name: &[u8]) -> usize
    ensures { result ≡ place_of (map (λ p. p.name) params.now) name.now }
{
    match find_param(params, name) {
        Some(place) => place,
        None => params.len(),
    }
}

fn find_word(words: &[Word], name: &[u8]) -> Option<usize>
    ensures { result ≡ position (λ p. bytes_eq name.now p) words.now }
{
    words.iter().position(|word| name == word.bytes())
}

fn place_of_word(words: &[Word], name: &[u8]) -> usize
    ensures { result ≡ place_of (words.now) name.now }
{
    match find_word(words, name) {
        Some(place) => place,
        None => words.len(),
    }
}

/// The place of a part with a name, or the number of parts.
pub fn place_in(shape: &Shape, name: &[u8]) -> usize
    ensures { result ≡ place_of (parts_view shape.now) name.now }
{
    match shape {
        Shape::Names(values) => place_of_word(values.as_slice(), name),
        Shape::Fields(parts) => place_of_part(parts.as_slice(), name),
        Shape::Cases(parts) => place_of_part(parts.as_slice(), name),
        Shape::CallMessage { params, raises: _ } => place_of_param(params.as_slice(), name),
        _ => 0,
    }
}

/// The field with a name, by place and type.
fn field_named(parts: &[Part], name: &[u8]) -> Option<(u32, TypeNo)>
    requires few { length parts.now < 2 ^ 32 }
    ensures { option_map part_seen result ≡ field_at (map (λ p. p.name) parts.now) (map (λ p. p.of.0) parts.now) name.now }
{
    let place = place_of_part(parts, name);
    match parts.get(place) {
        Some(part) => Some((place as u32, part.of)),
        None => None,
    }
}

/// The field with a name of a type, by place and type.
fn step_from(table: &TypeTable, t: TypeNo, name: &[u8]) -> Option<(u32, TypeNo)>
    ensures { option_map part_seen result ≡ step_from table.now t.0 name.now }
{
    table.keeps();
    if t.0 as usize >= table.len() {
        return None;
    }
    match table.shape(t) {
        Shape::Fields(parts) => field_named(parts.as_slice(), name),
        _ => None,
    }
}

/// The type at the end of a path of names of fields from a type, and the places of the fields on the way.
fn walk(
    alloc: Global,
    table: &TypeTable,
    from: TypeNo,
    path: &[Name],
) -> Result<Option<(Vec<u32>, TypeNo)>, AllocError>
    ensures { IfOk result (λ e. option_map (λ e. (e.0.items, e.1.0)) e ≡ end_of (walk table.now from.0 (map name_view path.now))) }
{
    let mut places = Vec::new(alloc);
    let mut t = from;
    for name in path {
        match step_from(table, t, name.text.bytes()) {
            None => return Ok(None),
            Some(field) => {
                places.push(field.0)?;
                t = field.1;
            }
        }
    }
    Ok(Some((places, t)))
}

/// The same for a path of one field at least.
pub fn walk_fields(
    alloc: Global,
    table: &TypeTable,
    from: TypeNo,
    path: &[Name],
) -> Result<Option<(Vec<u32>, TypeNo)>, AllocError>
    ensures { IfOk result (λ e. option_map (λ e. (e.0.items, e.1.0)) e ≡ end_of (walk_fields table.now from.0 (map name_view path.now))) }
{
    if path.is_empty() {
        return Ok(None);
    }
    let end = walk(alloc, table, from, path)?;
    Ok(end)
}
