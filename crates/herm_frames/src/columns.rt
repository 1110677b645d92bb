//! The fields that are the key of a table, by its type, and rows that have them.
ghost use Rattle.std.specs.Prelude.{◌≡◌, IsTrue, List, ℕ, None, Some, map, option_map, slice_get};
ghost use Rattle.herm_model.specs.Calls.{shape_at};
ghost use Rattle.herm_model.specs.Lists.{IsIn};
ghost use Rattle.herm_model.specs.TypedExpressions.{is_scalar_shape};
ghost use Rattle.herm_model.specs.WellFormedTables.{IsScalarField};
ghost use Rattle.herm_forms.specs.Acts.{key_fields};
ghost use Rattle.herm_forms.specs.Modules.{Module};
ghost use Rattle.herm_types.specs.View.{path_view, shape_view};
ghost use Rattle.herm_frames.specs.KeyedTables.{HasKeyFields};
ghost use Rattle.herm_frames.specs.Scopes.{numbers_of};

use crate::types::type_at;
use herm_base::TypeNo;
use herm_types::{Part, Path, Shape, TypeTable};

/// The shape of the type of what is at a path.
fn shape_at<'a>(types: &'a TypeTable, variables: &[TypeNo], path: &Path) -> Option<&'a Shape>
    ensures of { option_map (λ s. shape_view s.now) result ≡ shape_at types.now.shapes (numbers_of variables.now) (path_view path.now) }
{
    let Some(t) = type_at(types, variables, path) else {
        return None;
    };
    if t.0 as usize >= types.len() {
        return None;
    }
    Some(types.shape(t))
}

/// The fields that are the key of a table at a path, by its type, and none where it is of no table's type.
pub fn key_columns<'a>(types: &'a TypeTable, variables: &[TypeNo], path: &Path) -> &'a [u32]
    ensures of { result.now ≡ key_fields (shape_at types.now.shapes (numbers_of variables.now) (path_view path.now)) }
{
    match shape_at(types, variables, path) {
        Some(Shape::Rows { row: _, keys }) => keys.as_slice(),
        _ => &[],
    }
}

fn is_scalar(shape: &Shape) -> bool
    ensures { result ≡ is_scalar_shape (shape_view shape.now) }
{
    match shape {
        Shape::Boolean => true,
        Shape::Integer => true,
        Shape::Text => true,
        Shape::Names(_) => true,
        _ => false,
    }
}

/// Whether a field of a record is a scalar.
fn is_scalar_field(types: &TypeTable, parts: &[Part], column: u32) -> bool
    ensures scalar { IsTrue result → IsScalarField types.now.shapes (map (λ f. f.of.0) parts.now) column }
    ensures all { IsScalarField types.now.shapes (map (λ f. f.of.0) parts.now) column → IsTrue result }
{
    let Some(part) = parts.get(column as usize) else {
        return false;
    };
    if part.of.0 as usize >= types.len() {
        return false;
    }
    is_scalar(types.shape(part.of))
}

/// Whether these fields of a record are scalars.
fn are_scalar_fields(types: &TypeTable, parts: &[Part], columns: &[u32]) -> bool
    ensures scalars { IsTrue result → (i : ℕ) → IsIn i columns.now → IsScalarField types.now.shapes (map (λ f. f.of.0) parts.now) i }
    ensures all { ((i : ℕ) → IsIn i columns.now → IsScalarField types.now.shapes (map (λ f. f.of.0) parts.now) i) → IsTrue result }
{
    'columns: for column in columns {
        if !is_scalar_field(types, parts, *column) {
            return false;
        }
    }
    true
}

/// Whether what is at a path is of a record type of which these fields are scalars. It takes no memory.
pub fn has_key_fields(types: &TypeTable, variables: &[TypeNo], row: &Path, columns: &[u32]) -> bool
    ensures has { (c : Module) → c.types ≡ types.now.shapes → c.variables ≡ numbers_of variables.now → IsTrue result → HasKeyFields c columns.now (path_view row.now) }
    ensures all { (c : Module) → c.types ≡ types.now.shapes → c.variables ≡ numbers_of variables.now → HasKeyFields c columns.now (path_view row.now) → IsTrue result }
{
    match shape_at(types, variables, row) {
        Some(Shape::Fields(parts)) => are_scalar_fields(types, parts.as_slice(), columns),
        _ => false,
    }
}
