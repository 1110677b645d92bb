//! Paths by number.
ghost use Rattle.std.specs.Prelude.{◌≡◌, ◌<◌, ◌^◌, ◌∷◌, length, map, option_map, slice_get, IfOk};
ghost use Rattle.herm_model.specs.Types.{part_of, part_type, type_below};
ghost use Rattle.herm_naming.specs.Numbers.{part_number, part_numbers, path_number, type_seen};
ghost use Rattle.herm_syntax.specs.View.{name_view, path_form_view};
ghost use Rattle.herm_typed.specs.View.{typed_path_view};
ghost use Rattle.herm_numbers.specs.View.{scope_view, number_of, kind, IsSized};
ghost use Rattle.herm_types.specs.View.{shape_view};

use crate::scope::Scope;
use herm_base::{Name, TypeNo, VarNo};
use herm_syntax::PathForm;
use herm_typed::TypedPath;
use herm_types::{Path, Shape, TypeTable};
use std::alloc::{AllocError, Global};

/// The type of the part at a place.
fn type_of_part(shape: &Shape, place: usize) -> Option<TypeNo>
    ensures { option_map (λ t. t.0) result ≡ part_type (shape_view shape.now) place }
{
    match shape {
        Shape::Fields(parts) => parts.get(place).map(|part| part.of),
        Shape::Cases(parts) => parts.get(place).map(|part| part.of),
        Shape::CallMessage { params, raises: _ } => params.get(place).map(|param| param.of),
        Shape::Boolean => None,
        Shape::Integer => None,
        Shape::Text => None,
        Shape::Poly => None,
        Shape::Names(_) => None,
        Shape::Rows { row: _, keys: _ } => None,
        Shape::Inport {
            message: _,
            facts: _,
        } => None,
        Shape::Outport { port: _ } => None,
    }
}

/// The number of the part with this name in a type, and the part's type.
pub fn part(scope: &Scope, t: Option<TypeNo>, name: &[u8]) -> (u32, Option<TypeNo>)
    requires { IsSized scope.now.types.now }
    ensures place { result.0 ≡ part_number scope.now.types.now (kind t) name.now }
    ensures of { kind result.1 ≡ part_of scope.now.types.now.shapes (kind t) (part_number scope.now.types.now (kind t) name.now) }
{
    let t = match t {
        Some(t) => t,
        None => return (0, None),
    };
    let names = match scope.parts.get(t.0 as usize) {
        Some(names) => names,
        None => return (0, None),
    };
    let place = names.number(name);
    let of = type_of_part(scope.types.shape(t), place as usize);
    (place, of)
}

/// The numbers of the parts of a path behind a value of a type, and the type at the end.
fn parts(
    alloc: Global,
    scope: &Scope,
    t: Option<TypeNo>,
    names: &[Name],
) -> Result<(Vec<u32>, Option<TypeNo>), AllocError>
    requires { IsSized scope.now.types.now }
    ensures numbers { IfOk result (λ r. r.0.items ≡ part_numbers scope.now.types.now (kind t) (map name_view names.now)) }
    ensures of { IfOk result (λ r. kind r.1 ≡ type_below scope.now.types.now.shapes (kind t) (part_numbers scope.now.types.now (kind t) (map name_view names.now))) }
{
    let mut found = Vec::new(alloc);
    let mut at = t;
    'names: for name in names {
        let (place, next) = part(scope, at, name.text.bytes());
        found.push(place)?;
        at = next;
    }
    Ok((found, at))
}

/// The type of the variable at a place, none where there is no such variable.
fn variable_type(of: &[TypeNo], place: usize) -> Option<TypeNo>
    ensures { kind result ≡ slice_get (map (λ t. t.0) of.now) place }
{
    of.get(place).copied()
}

/// The type's number, or the one behind the last where the type is not known.
fn type_or_unknown(types: &TypeTable, t: Option<TypeNo>) -> TypeNo
    requires { IsSized types.now }
    ensures { result.0 ≡ number_of types.now (kind t) }
{
    match t {
        Some(t) => t,
        None => TypeNo(types.len() as u32),
    }
}

/// A path by number, from the variable's place and the parts behind it, with the type of its value.
fn path_at(
    alloc: Global,
    scope: &Scope,
    place: usize,
    names: &[Name],
) -> Result<TypedPath, AllocError>
    requires sized { IsSized scope.now.types.now }
    requires few { place < 2 ^ 32 }
    ensures path { IfOk result (λ p. typed_path_view p ≡ place ∷ part_numbers scope.now.types.now (slice_get (scope_view scope.now).types place) (map name_view names.now)) }
    ensures of { IfOk result (λ p. p.of.0 ≡ number_of scope.now.types.now (type_seen (scope_view scope.now) (place ∷ part_numbers scope.now.types.now (slice_get (scope_view scope.now).types place) (map name_view names.now)))) }
{
    let first = variable_type(scope.of.as_slice(), place);
    let (parts, t) = parts(alloc, scope, first, names)?;
    let of = type_or_unknown(scope.types, t);
    let var = VarNo(place as u32);
    Ok(TypedPath {
        path: Path { var, parts },
        of,
    })
}

/// A path by number, with the type of its value. A path without a name names a variable that is not there.
pub fn path_from(alloc: Global, scope: &Scope, names: &[Name]) -> Result<TypedPath, AllocError>
    requires sized { IsSized scope.now.types.now }
    requires few { length scope.now.variables < 2 ^ 32 }
    ensures path { IfOk result (λ p. typed_path_view p ≡ path_number (scope_view scope.now) (map name_view names.now)) }
    ensures of { IfOk result (λ p. p.of.0 ≡ number_of scope.now.types.now (type_seen (scope_view scope.now) (path_number (scope_view scope.now) (map name_view names.now)))) }
{
    if names.is_empty() {
        let place = scope.variables.len();
        return path_at(alloc, scope, place, names);
    }
    let place = scope.variables.place(names[0].text.bytes());
    path_at(alloc, scope, place, &names[1..])
}

/// A path by number, with the type of its value.
pub fn path(alloc: Global, scope: &Scope, p: &PathForm) -> Result<TypedPath, AllocError>
    requires sized { IsSized scope.now.types.now }
    requires few { length scope.now.variables < 2 ^ 32 }
    ensures path { IfOk result (λ q. typed_path_view q ≡ path_number (scope_view scope.now) (path_form_view p.now)) }
    ensures of { IfOk result (λ q. q.of.0 ≡ number_of scope.now.types.now (type_seen (scope_view scope.now) (path_number (scope_view scope.now) (path_form_view p.now)))) }
{
    let found = path_from(alloc, scope, p.parts.as_slice())?;
    Ok(found)
}
