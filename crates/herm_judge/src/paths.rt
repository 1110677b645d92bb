//! Paths by number: whether they are there, the types of their values, and what they pass through.
ghost use Rattle.std.specs.Prelude.{◌≡◌, not, ◌||◌, is_some, slice_get, false};
ghost use Rattle.herm_model.specs.Types.{part_of, type_below, type_at, passes_component, enters_component};
ghost use Rattle.herm_model.specs.TypedExpressions.{passes_out, enters_out};
ghost use Rattle.herm_naming.specs.Fits.{type_of, is_seen, is_own};
ghost use Rattle.herm_naming.specs.UnknownNames.{is_known, is_there, are_parts_there};
ghost use Rattle.herm_types.specs.View.{path_view};
ghost use Rattle.herm_judge.specs.View.{kind, kinds, table_of, variables_of};

use crate::frame::Frame;
use crate::shapes::{is_known, is_out_part, is_variant, part_of};
use herm_base::TypeNo;
use herm_types::{Path, TypeTable};

/// The type of the variable at a place.
fn variable_type(of: &[TypeNo], place: u32) -> Option<TypeNo>
    ensures of { kind result ≡ slice_get (kinds of.now) place }
{
    of.get(place as usize).copied()
}

fn type_below(types: &TypeTable, t: Option<TypeNo>, parts: &[u32]) -> Option<TypeNo>
    ensures of { kind result ≡ type_below types.now.shapes (kind t) parts.now }
{
    let mut at = t;
    'parts: for part in parts {
        at = part_of(types, at, *part);
    }
    at
}

/// The type of the value at a path.
pub fn type_of(frame: &Frame, p: &Path) -> Option<TypeNo>
    ensures of { kind result ≡ type_of (table_of frame.now) (variables_of frame.now) (path_view p.now) }
{
    let first = variable_type(frame.of, p.var.0);
    type_below(frame.types, first, p.parts.as_slice())
}

#[tactic(auto, using(crate::proofs::Stops::unknown_there))]
fn are_parts_there(types: &TypeTable, t: Option<TypeNo>, parts: &[u32]) -> bool
    ensures there { result ≡ are_parts_there types.now.shapes (kind t) parts.now }
{
    let mut at = t;
    'parts: for part in parts {
        if !is_known(types, at) {
            return true;
        }
        at = part_of(types, at, *part);
        if at.is_none() {
            return false;
        }
    }
    true
}

/// Whether the variable of a path is declared and its parts are there. Behind a type that is not known no part is judged.
pub fn is_there(frame: &Frame, p: &Path) -> bool
    ensures there { result ≡ is_there (table_of frame.now) (variables_of frame.now) (path_view p.now) }
{
    if p.var.0 as usize >= frame.of.len() {
        return false;
    }
    let first = variable_type(frame.of, p.var.0);
    are_parts_there(frame.types, first, p.parts.as_slice())
}

/// Whether a type has a part at a place, where the type is known.
pub fn is_part_there(types: &TypeTable, t: Option<TypeNo>, place: u32) -> bool
    ensures there { result ≡ (not (is_known types.now.shapes (kind t)) || is_some (part_of types.now.shapes (kind t) place)) }
{
    if !is_known(types, t) {
        return true;
    }
    part_of(types, t, place).is_some()
}

#[tactic(auto, using(crate::proofs::Stops::entered))]
fn enters_component(types: &TypeTable, t: Option<TypeNo>, parts: &[u32]) -> bool
    ensures enters { result ≡ enters_component types.now.shapes (kind t) parts.now }
{
    let mut at = t;
    'parts: for part in parts {
        if is_variant(types, at) {
            return true;
        }
        at = part_of(types, at, *part);
    }
    false
}

/// Whether a path passes through a component.
pub fn passes_component(frame: &Frame, p: &Path) -> bool
    ensures passes { result ≡ passes_component (table_of frame.now) (variables_of frame.now) (path_view p.now) }
{
    let first = variable_type(frame.of, p.var.0);
    enters_component(frame.types, first, p.parts.as_slice())
}

fn enters_out(types: &TypeTable, t: Option<TypeNo>, parts: &[u32]) -> bool
    ensures enters { result ≡ enters_out types.now.shapes false (kind t) parts.now }
{
    let mut at = t;
    let mut behind = false;
    'parts: for part in parts {
        if behind && is_out_part(types, at, *part) {
            return true;
        }
        behind = behind || is_variant(types, at);
        at = part_of(types, at, *part);
    }
    false
}

/// Whether a path has no `out` parameter behind a component.
pub fn is_seen(frame: &Frame, p: &Path) -> bool
    ensures seen { result ≡ is_seen (table_of frame.now) (variables_of frame.now) (path_view p.now) }
{
    let first = variable_type(frame.of, p.var.0);
    !enters_out(frame.types, first, p.parts.as_slice())
}

/// Whether a path may be set and its value may leave: it passes through no component.
pub fn is_own(frame: &Frame, p: &Path) -> bool
    ensures own { result ≡ is_own (table_of frame.now) (variables_of frame.now) (path_view p.now) }
{
    is_seen(frame, p) && !passes_component(frame, p)
}
