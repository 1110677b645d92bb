//! Keys and arguments: whether they are there, whether they fit, whether they may be copied.
ghost use Rattle.std.specs.Prelude.{◌≡◌, ◌∷◌, [], map, slice_get};
ghost use Rattle.herm_model.specs.Lists.{all_pass, list_of};
ghost use Rattle.herm_model.specs.Expressions.{paths_among};
ghost use Rattle.herm_model.specs.Calls.{arguments_by};
ghost use Rattle.herm_meaning.specs.Names.{IsWellNamed};
ghost use Rattle.herm_naming.specs.Fits.{may_be, atom_gives, is_fit_atom, is_set_atom, is_argument, are_arguments, are_keys, field_types, is_in_mode, may_have_keys, has_parameters, gives_parameters, takes_parameters};
ghost use Rattle.herm_naming.specs.UnknownNames.{is_there, is_literal_there, literals_among};
ghost use Rattle.herm_naming.specs.Copies.{may_copy_each};
ghost use Rattle.herm_types.specs.View.{mode_view, param_view};
ghost use Rattle.herm_typed.specs.View.{typed_atom_view};
ghost use Rattle.herm_judge.specs.View.{kind, table_of, variables_of};

use crate::frame::Frame;
use crate::literals::{is_literal_fit, is_literal_there, literal_gives};
use crate::paths::{is_own, is_seen, is_there, type_of};
use crate::shapes::{may_copy, may_equal, shape_of, type_in};
use herm_base::TypeNo;
use herm_typed::TypedAtom;
use herm_types::{Mode, Param, Shape, TypeTable};

/// The type of an atom.
fn atom_gives(frame: &Frame, a: &TypedAtom) -> Option<TypeNo>
    ensures gives { kind result ≡ atom_gives (table_of frame.now) (variables_of frame.now) (typed_atom_view a.now) }
{
    match a {
        TypedAtom::Literal(l) => literal_gives(l),
        TypedAtom::Path(p) => type_of(frame, &p.path),
    }
}

fn is_atom_fit(frame: &Frame, a: &TypedAtom) -> bool
    ensures fits { result ≡ is_fit_atom (table_of frame.now) (variables_of frame.now) (typed_atom_view a.now) }
{
    match a {
        TypedAtom::Literal(l) => is_literal_fit(frame.types, l),
        TypedAtom::Path(p) => is_seen(frame, &p.path),
    }
}

/// Whether atoms fit by themselves.
pub fn are_atoms_fit(frame: &Frame, list: &[TypedAtom]) -> bool
    ensures fit { result ≡ all_pass (is_fit_atom (table_of frame.now) (variables_of frame.now)) (map typed_atom_view list.now) }
{
    'atoms: for a in list {
        if !is_atom_fit(frame, a) {
            return false;
        }
    }
    true
}

/// Whether the paths among atoms are there.
pub fn are_paths_there(frame: &Frame, list: &[TypedAtom]) -> bool
    ensures there { result ≡ all_pass (is_there (table_of frame.now) (variables_of frame.now)) (paths_among (map typed_atom_view list.now)) }
{
    'atoms: for a in list {
        if let TypedAtom::Path(p) = a {
            if !is_there(frame, &p.path) {
                return false;
            }
        }
    }
    true
}

/// Whether the literals among atoms are there.
pub fn are_literals_there(types: &TypeTable, list: &[TypedAtom]) -> bool
    ensures there { result ≡ all_pass (is_literal_there types.now.shapes) (literals_among (map typed_atom_view list.now)) }
{
    'atoms: for a in list {
        if let TypedAtom::Literal(l) = a {
            if !is_literal_there(types, l) {
                return false;
            }
        }
    }
    true
}

/// Whether the values at the paths among atoms may be copied.
pub fn are_keys_copied(frame: &Frame, list: &[TypedAtom]) -> bool
    requires well { IsWellNamed frame.now.types.now }
    ensures copied { result ≡ may_copy_each (table_of frame.now) (variables_of frame.now) (paths_among (map typed_atom_view list.now)) }
{
    'atoms: for a in list {
        if let TypedAtom::Path(p) = a {
            if !may_copy(frame.types, type_of(frame, &p.path)) {
                return false;
            }
        }
    }
    true
}

/// The type of a field of a row, none where the row is no record.
fn field_type(types: &TypeTable, row: TypeNo, place: u32) -> Option<TypeNo>
    ensures of { kind result ≡ slice_get (list_of field_types (slice_get types.now.shapes row.0)) place }
{
    if row.0 as usize >= types.len() {
        return None;
    }
    match types.shape(row) {
        Shape::Fields(parts) => type_in(parts.as_slice(), place),
        _ => None,
    }
}

fn are_keys(frame: &Frame, row: TypeNo, key: &[u32], list: &[TypedAtom]) -> bool
    ensures keys { result ≡ are_keys (table_of frame.now) (variables_of frame.now) (list_of field_types (slice_get (table_of frame.now) row.0)) key.now (map typed_atom_view list.now) }
{
    let mut rest = list;
    'keys: for place in key {
        match rest.split_first() {
            None => return false,
            Some((a, others)) => {
                let field = field_type(frame.types, row, *place);
                if !may_equal(frame.types, field, atom_gives(frame, a)) {
                    return false;
                }
                rest = others;
            }
        }
    }
    rest.is_empty()
}

/// Whether a type is a table with such a key.
pub fn may_have_keys(frame: &Frame, t: Option<TypeNo>, list: &[TypedAtom]) -> bool
    ensures may { result ≡ may_be (table_of frame.now) (may_have_keys (table_of frame.now) (variables_of frame.now) (map typed_atom_view list.now)) (kind t) }
{
    match shape_of(frame.types, t) {
        None => true,
        Some(shape) => match shape {
            Shape::Rows { row, keys } => are_keys(frame, *row, keys.as_slice(), list),
            _ => false,
        },
    }
}

fn is_in(mode: Mode) -> bool
    ensures mode { result ≡ is_in_mode (mode_view mode) }
{
    match mode {
        Mode::In => true,
        Mode::Inout => false,
        Mode::Out => false,
    }
}

fn is_set_atom(frame: &Frame, a: &TypedAtom) -> bool
    ensures set { result ≡ is_set_atom (table_of frame.now) (variables_of frame.now) (typed_atom_view a.now) }
{
    match a {
        TypedAtom::Literal(_) => false,
        TypedAtom::Path(p) => is_own(frame, &p.path),
    }
}

fn is_argument(frame: &Frame, param: &Param, a: &TypedAtom) -> bool
    ensures argument { result ≡ is_argument (table_of frame.now) (variables_of frame.now) (param_view param.now) (typed_atom_view a.now) }
{
    may_equal(frame.types, Some(param.of), atom_gives(frame, a))
        && (is_in(param.mode) || is_set_atom(frame, a))
}

fn are_arguments(frame: &Frame, params: &[Param], list: &[TypedAtom]) -> bool
    ensures arguments { result ≡ are_arguments (table_of frame.now) (variables_of frame.now) (map param_view params.now) (map typed_atom_view list.now) }
{
    let mut rest = list;
    'params: for param in params {
        match rest.split_first() {
            None => return false,
            Some((a, others)) => {
                if !is_argument(frame, param, a) {
                    return false;
                }
                rest = others;
            }
        }
    }
    rest.is_empty()
}

fn has_parameters(frame: &Frame, t: Option<TypeNo>, list: &[TypedAtom]) -> bool
    ensures may { result ≡ may_be (table_of frame.now) (has_parameters (table_of frame.now) (variables_of frame.now) (map typed_atom_view list.now)) (kind t) }
{
    match shape_of(frame.types, t) {
        None => true,
        Some(shape) => match shape {
            Shape::CallMessage { params, raises: _ } => {
                are_arguments(frame, params.as_slice(), list)
            }
            _ => false,
        },
    }
}

fn gives_parameters(frame: &Frame, t: Option<TypeNo>, list: &[TypedAtom]) -> bool
    ensures may { result ≡ may_be (table_of frame.now) (gives_parameters (table_of frame.now) (variables_of frame.now) (map typed_atom_view list.now)) (kind t) }
{
    match shape_of(frame.types, t) {
        None => true,
        Some(shape) => match shape {
            Shape::Inport { message, facts: _ } => has_parameters(frame, Some(*message), list),
            _ => false,
        },
    }
}

/// Whether a type is an outport to callmessages that take these arguments.
pub fn takes_parameters(frame: &Frame, t: Option<TypeNo>, list: &[TypedAtom]) -> bool
    ensures may { result ≡ may_be (table_of frame.now) (takes_parameters (table_of frame.now) (variables_of frame.now) (map typed_atom_view list.now)) (kind t) }
{
    match shape_of(frame.types, t) {
        None => true,
        Some(shape) => match shape {
            Shape::Outport { port } => gives_parameters(frame, Some(*port), list),
            _ => false,
        },
    }
}

fn may_copy_atom(frame: &Frame, a: &TypedAtom) -> bool
    requires well { IsWellNamed frame.now.types.now }
    ensures copied { result ≡ may_copy_each (table_of frame.now) (variables_of frame.now) (paths_among (typed_atom_view a.now ∷ [])) }
{
    match a {
        TypedAtom::Literal(_) => true,
        TypedAtom::Path(p) => may_copy(frame.types, type_of(frame, &p.path)),
    }
}

fn is_argument_copied(frame: &Frame, param: &Param, a: &TypedAtom) -> bool
    requires well { IsWellNamed frame.now.types.now }
    ensures copied { result ≡ may_copy_each (table_of frame.now) (variables_of frame.now) (arguments_by is_in_mode (param_view param.now ∷ []) (typed_atom_view a.now ∷ [])) }
{
    if !is_in(param.mode) {
        return true;
    }
    may_copy_atom(frame, a)
}

/// Whether the values of the arguments of mode `in` may be copied.
pub fn are_arguments_copied(frame: &Frame, params: &[Param], list: &[TypedAtom]) -> bool
    requires well { IsWellNamed frame.now.types.now }
    ensures copied { result ≡ may_copy_each (table_of frame.now) (variables_of frame.now) (arguments_by is_in_mode (map param_view params.now) (map typed_atom_view list.now)) }
{
    let mut rest = list;
    'params: for param in params {
        match rest.split_first() {
            None => return true,
            Some((a, others)) => {
                if !is_argument_copied(frame, param, a) {
                    return false;
                }
                rest = others;
            }
        }
    }
    true
}
