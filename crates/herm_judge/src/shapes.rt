//! Types where they are known, and tests of their shapes. A type that is not known passes every test.
ghost use Rattle.std.specs.Prelude.{◌≡◌, option_map, slice_get, map, nat_eq};
ghost use Rattle.herm_model.specs.Lists.{any_pass};
ghost use Rattle.herm_meaning.specs.Names.{IsWellNamed};
ghost use Rattle.herm_naming.specs.Copies.{may_copy, may_copy_rows};
ghost use Rattle.herm_model.specs.Types.{part_of, part_type, is_variant, is_cases, Raised};
ghost use Rattle.herm_model.specs.TypedExpressions.{is_boolean_shape, is_integer_shape, is_text_shape, is_scalar_shape, is_ordered_shape, is_out_parameter, is_out_part, is_out_mode, takes};
ghost use Rattle.herm_model.specs.TypedStatements.{can_be_new};
ghost use Rattle.herm_naming.specs.Fits.{shape_of, may_be, when_known, may_equal, may_hold, may_have_rows, may_lead, may_give, may_take, may_raise, is_polymorph_shape, is_names_shape, is_rows_shape, is_callmessage_shape};
ghost use Rattle.herm_naming.specs.UnknownNames.{is_known};
ghost use Rattle.herm_naming.specs.StatementFaults.{is_inport_shape};
ghost use Rattle.herm_types.specs.View.{shape_view, mode_view, raise_decl_view};
ghost use Rattle.herm_typed.specs.View.{typed_comp_op_view, typed_sum_op_view, typed_prod_op_view};
ghost use Rattle.herm_judge.specs.View.{kind};

use herm_base::{ExcNo, TypeNo};
use herm_syntax::{CompOp, ProdOp, SumOp};
use herm_types::{Mode, Param, Part, RaiseDecl, Shape, TypeTable};

/// The shape of a type, none where the type is not known.
pub fn shape_of(types: &TypeTable, t: Option<TypeNo>) -> Option<&Shape>
    ensures shape { option_map (λ s. shape_view s.now) result ≡ shape_of types.now.shapes (kind t) }
{
    let t = match t {
        Some(t) => t,
        None => return None,
    };
    if t.0 as usize >= types.len() {
        return None;
    }
    Some(types.shape(t))
}

/// The type, where it is known.
pub fn known(types: &TypeTable, t: Option<TypeNo>) -> Option<TypeNo>
    ensures known { kind result ≡ when_known types.now.shapes (kind t) }
{
    let t = match t {
        Some(t) => t,
        None => return None,
    };
    if t.0 as usize >= types.len() {
        return None;
    }
    let _shape = types.shape(t);
    Some(t)
}

/// Whether a type is known.
pub fn is_known(types: &TypeTable, t: Option<TypeNo>) -> bool
    ensures known { result ≡ is_known types.now.shapes (kind t) }
{
    let t = match t {
        Some(t) => t,
        None => return false,
    };
    if t.0 as usize >= types.len() {
        return false;
    }
    let _shape = types.shape(t);
    true
}

/// Whether two types are one, where both are known.
pub fn may_equal(types: &TypeTable, t: Option<TypeNo>, u: Option<TypeNo>) -> bool
    ensures equal { result ≡ may_equal types.now.shapes (kind t) (kind u) }
{
    let t = match known(types, t) {
        Some(t) => t,
        None => return true,
    };
    let u = match known(types, u) {
        Some(u) => u,
        None => return true,
    };
    t.0 == u.0
}

fn type_of_part(shape: &Shape, place: usize) -> Option<TypeNo>
    ensures of { kind result ≡ part_type (shape_view shape.now) place }
{
    match shape {
        Shape::Fields(parts) => parts.get(place).map(|part| part.of),
        Shape::Cases(parts) => parts.get(place).map(|part| part.of),
        Shape::CallMessage { params, raises: _ } => params.get(place).map(|param| param.of),
        _ => None,
    }
}

/// The type of the part at a place of a type.
pub fn part_of(types: &TypeTable, t: Option<TypeNo>, place: u32) -> Option<TypeNo>
    ensures of { kind result ≡ part_of types.now.shapes (kind t) place }
{
    let t = match t {
        Some(t) => t,
        None => return None,
    };
    if t.0 as usize >= types.len() {
        return None;
    }
    type_of_part(types.shape(t), place as usize)
}

fn is_cases(shape: &Shape) -> bool
    ensures cases { result ≡ is_cases (shape_view shape.now) }
{
    match shape {
        Shape::Cases(_) => true,
        _ => false,
    }
}

/// Whether a type is a variant that is known.
pub fn is_variant(types: &TypeTable, t: Option<TypeNo>) -> bool
    ensures variant { result ≡ is_variant types.now.shapes (kind t) }
{
    let t = match t {
        Some(t) => t,
        None => return false,
    };
    if t.0 as usize >= types.len() {
        return false;
    }
    is_cases(types.shape(t))
}

fn is_out(mode: Mode) -> bool
    ensures out { result ≡ is_out_mode (mode_view mode) }
{
    match mode {
        Mode::Out => true,
        Mode::In => false,
        Mode::Inout => false,
    }
}

fn is_out_parameter(shape: &Shape, place: usize) -> bool
    ensures out { result ≡ is_out_parameter (shape_view shape.now) place }
{
    match shape {
        Shape::CallMessage { params, raises: _ } => match params.get(place) {
            Some(param) => is_out(param.mode),
            None => false,
        },
        _ => false,
    }
}

/// Whether the part at a place of a type is an `out` parameter.
pub fn is_out_part(types: &TypeTable, t: Option<TypeNo>, place: u32) -> bool
    ensures out { result ≡ is_out_part types.now.shapes (kind t) place }
{
    let t = match t {
        Some(t) => t,
        None => return false,
    };
    if t.0 as usize >= types.len() {
        return false;
    }
    is_out_parameter(types.shape(t), place as usize)
}

pub fn is_boolean(types: &TypeTable, t: Option<TypeNo>) -> bool
    ensures may { result ≡ may_be types.now.shapes is_boolean_shape (kind t) }
{
    match shape_of(types, t) {
        None => true,
        Some(shape) => match shape {
            Shape::Boolean => true,
            _ => false,
        },
    }
}

pub fn is_integer(types: &TypeTable, t: Option<TypeNo>) -> bool
    ensures may { result ≡ may_be types.now.shapes is_integer_shape (kind t) }
{
    match shape_of(types, t) {
        None => true,
        Some(shape) => match shape {
            Shape::Integer => true,
            _ => false,
        },
    }
}

pub fn is_text(types: &TypeTable, t: Option<TypeNo>) -> bool
    ensures may { result ≡ may_be types.now.shapes is_text_shape (kind t) }
{
    match shape_of(types, t) {
        None => true,
        Some(shape) => match shape {
            Shape::Text => true,
            _ => false,
        },
    }
}

pub fn is_scalar(types: &TypeTable, t: Option<TypeNo>) -> bool
    ensures may { result ≡ may_be types.now.shapes is_scalar_shape (kind t) }
{
    match shape_of(types, t) {
        None => true,
        Some(shape) => match shape {
            Shape::Boolean => true,
            Shape::Integer => true,
            Shape::Text => true,
            Shape::Names(_) => true,
            _ => false,
        },
    }
}

pub fn is_ordered(types: &TypeTable, t: Option<TypeNo>) -> bool
    ensures may { result ≡ may_be types.now.shapes is_ordered_shape (kind t) }
{
    match shape_of(types, t) {
        None => true,
        Some(shape) => match shape {
            Shape::Integer => true,
            Shape::Text => true,
            _ => false,
        },
    }
}

/// Whether a type is an enumeration.
pub fn is_names(types: &TypeTable, t: Option<TypeNo>) -> bool
    ensures may { result ≡ may_be types.now.shapes is_names_shape (kind t) }
{
    match shape_of(types, t) {
        None => true,
        Some(shape) => match shape {
            Shape::Names(_) => true,
            _ => false,
        },
    }
}

/// Whether a type is a table.
pub fn is_rows(types: &TypeTable, t: Option<TypeNo>) -> bool
    ensures may { result ≡ may_be types.now.shapes is_rows_shape (kind t) }
{
    match shape_of(types, t) {
        None => true,
        Some(shape) => match shape {
            Shape::Rows { row: _, keys: _ } => true,
            _ => false,
        },
    }
}

pub fn is_polymorph(types: &TypeTable, t: Option<TypeNo>) -> bool
    ensures may { result ≡ may_be types.now.shapes is_polymorph_shape (kind t) }
{
    match shape_of(types, t) {
        None => true,
        Some(shape) => match shape {
            Shape::Poly => true,
            _ => false,
        },
    }
}

pub fn is_callmessage(types: &TypeTable, t: Option<TypeNo>) -> bool
    ensures may { result ≡ may_be types.now.shapes is_callmessage_shape (kind t) }
{
    match shape_of(types, t) {
        None => true,
        Some(shape) => match shape {
            Shape::CallMessage {
                params: _,
                raises: _,
            } => true,
            _ => false,
        },
    }
}

/// Whether a type is a variant.
pub fn may_be_variant(types: &TypeTable, t: Option<TypeNo>) -> bool
    ensures may { result ≡ may_be types.now.shapes is_cases (kind t) }
{
    match shape_of(types, t) {
        None => true,
        Some(shape) => is_cases(shape),
    }
}

/// Whether `new` makes values of a type: of a record, a table or an inport.
pub fn can_be_new(types: &TypeTable, t: Option<TypeNo>) -> bool
    ensures may { result ≡ may_be types.now.shapes can_be_new (kind t) }
{
    match shape_of(types, t) {
        None => true,
        Some(shape) => match shape {
            Shape::Fields(_) => true,
            Shape::Rows { row: _, keys: _ } => true,
            Shape::Inport {
                message: _,
                facts: _,
            } => true,
            _ => false,
        },
    }
}

/// Whether a comparison takes operands of a type.
pub fn comparison_takes(types: &TypeTable, op: CompOp, t: Option<TypeNo>) -> bool
    ensures may { result ≡ may_be types.now.shapes (takes (typed_comp_op_view op)) (kind t) }
{
    match op {
        CompOp::Eq => is_scalar(types, t),
        CompOp::Ne => is_scalar(types, t),
        CompOp::Lt => is_ordered(types, t),
        CompOp::Le => is_ordered(types, t),
        CompOp::Gt => is_ordered(types, t),
        CompOp::Ge => is_ordered(types, t),
    }
}

/// Whether `+`, `-` or `&` takes operands of a type.
pub fn sum_takes(types: &TypeTable, op: SumOp, t: Option<TypeNo>) -> bool
    ensures may { result ≡ may_be types.now.shapes (takes (typed_sum_op_view op)) (kind t) }
{
    match op {
        SumOp::Add => is_integer(types, t),
        SumOp::Sub => is_integer(types, t),
        SumOp::Cat => is_text(types, t),
    }
}

/// Whether `*`, `div` or `mod` takes operands of a type.
pub fn product_takes(types: &TypeTable, op: ProdOp, t: Option<TypeNo>) -> bool
    ensures may { result ≡ may_be types.now.shapes (takes (typed_prod_op_view op)) (kind t) }
{
    match op {
        ProdOp::Mul => is_integer(types, t),
        ProdOp::Div => is_integer(types, t),
        ProdOp::Mod => is_integer(types, t),
    }
}

/// The type of the part at a place.
pub fn type_in(parts: &[Part], place: u32) -> Option<TypeNo>
    ensures of { kind result ≡ slice_get (map (λ p. p.of.0) parts.now) place }
{
    parts.get(place as usize).map(|part| part.of)
}

/// Whether a type is a variant whose component is of another type.
pub fn may_hold(types: &TypeTable, v: Option<TypeNo>, component: u32, t: Option<TypeNo>) -> bool
    ensures may { result ≡ may_be types.now.shapes (may_hold types.now.shapes component (kind t)) (kind v) }
{
    match shape_of(types, v) {
        None => true,
        Some(shape) => match shape {
            Shape::Cases(parts) => may_equal(types, type_in(parts.as_slice(), component), t),
            _ => false,
        },
    }
}

/// Whether a type is a table of rows of another type.
pub fn may_have_rows(types: &TypeTable, v: Option<TypeNo>, t: Option<TypeNo>) -> bool
    ensures may { result ≡ may_be types.now.shapes (may_have_rows types.now.shapes (kind t)) (kind v) }
{
    match shape_of(types, v) {
        None => true,
        Some(shape) => match shape {
            Shape::Rows { row, keys: _ } => may_equal(types, Some(*row), t),
            _ => false,
        },
    }
}

/// Whether a type is an outport of another type.
pub fn may_lead(types: &TypeTable, o: Option<TypeNo>, t: Option<TypeNo>) -> bool
    ensures may { result ≡ may_be types.now.shapes (may_lead types.now.shapes (kind t)) (kind o) }
{
    match shape_of(types, o) {
        None => true,
        Some(shape) => match shape {
            Shape::Outport { port } => may_equal(types, Some(*port), t),
            _ => false,
        },
    }
}

/// Whether a type is an inport of messages of another type.
pub fn may_give(types: &TypeTable, i: Option<TypeNo>, t: Option<TypeNo>) -> bool
    ensures may { result ≡ may_be types.now.shapes (may_give types.now.shapes (kind t)) (kind i) }
{
    match shape_of(types, i) {
        None => true,
        Some(shape) => match shape {
            Shape::Inport { message, facts: _ } => may_equal(types, Some(*message), t),
            _ => false,
        },
    }
}

/// Whether a type is an outport to an inport of messages of another type.
pub fn may_take(types: &TypeTable, o: Option<TypeNo>, t: Option<TypeNo>) -> bool
    ensures may { result ≡ may_be types.now.shapes (may_take types.now.shapes (kind t)) (kind o) }
{
    match shape_of(types, o) {
        None => true,
        Some(shape) => match shape {
            Shape::Outport { port } => may_give(types, Some(*port), t),
            _ => false,
        },
    }
}

/// Whether values of a type may be copied.
#[tactic(auto, using(crate::proofs::Copyable::copy_tested))]
pub fn may_copy(types: &TypeTable, t: Option<TypeNo>) -> bool
    requires well { IsWellNamed types.now }
    ensures copies { result ≡ may_copy types.now.shapes (kind t) }
{
    let t = match t {
        Some(t) => t,
        None => return true,
    };
    if t.0 as usize >= types.len() {
        return true;
    }
    let _shape = types.shape(t);
    types.is_copyable(t)
}

/// Whether a type is a table whose rows may be copied.
pub fn may_copy_rows(types: &TypeTable, t: Option<TypeNo>) -> bool
    requires well { IsWellNamed types.now }
    ensures copies { result ≡ may_be types.now.shapes (may_copy_rows types.now.shapes) (kind t) }
{
    match shape_of(types, t) {
        None => true,
        Some(shape) => match shape {
            Shape::Rows { row, keys: _ } => may_copy(types, Some(*row)),
            _ => true,
        },
    }
}

fn raises_exception(raises: &[RaiseDecl], e: ExcNo) -> bool
    ensures raises { result ≡ any_pass (λ (r : Raised). nat_eq e.0 r.exception) (map raise_decl_view raises.now) }
{
    'raises: for r in raises {
        if e.0 == r.exc.0 {
            return true;
        }
    }
    false
}

/// Whether a type is a callmessage that may raise an exception.
pub fn may_raise(types: &TypeTable, m: Option<TypeNo>, e: ExcNo) -> bool
    ensures may { result ≡ may_be types.now.shapes (may_raise e.0) (kind m) }
{
    match shape_of(types, m) {
        None => true,
        Some(shape) => match shape {
            Shape::CallMessage { params: _, raises } => raises_exception(raises.as_slice(), e),
            _ => false,
        },
    }
}

/// Whether a type is an inport type.
pub fn is_inport(types: &TypeTable, t: Option<TypeNo>) -> bool
    ensures may { result ≡ may_be types.now.shapes is_inport_shape (kind t) }
{
    match shape_of(types, t) {
        None => true,
        Some(shape) => match shape {
            Shape::Inport {
                message: _,
                facts: _,
            } => true,
            _ => false,
        },
    }
}
