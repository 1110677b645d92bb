//! Whether a value is one of a type.
ghost use Rattle.std.specs.Prelude.{◌≡◌};
ghost use Rattle.herm_model.specs.Typed.{exactly, many};
ghost use Rattle.herm_types.specs.View.{shape_view};
ghost use Rattle.herm_values.specs.Parts.{parts_from};
ghost use Rattle.herm_values.specs.View.{value_view, views_of, table_parts};
ghost use Rattle.herm_values.specs.Whole.{IsWhole, AllWhole, IsWholeTable};
ghost use Rattle.herm_suits.specs.Decided.{is_of, is_shaped, fits, contents};
ghost use Rattle.herm_suits.specs.View.{degree_view};

use crate::layouts::{
    Content, Degree, component_type, content_at, is_integer_of, is_tag_of, is_text_of, may_be_empty,
};
use crate::rows::is_bounded;
use herm_base::TypeNo;
use herm_types::{Shape, TypeTable};
use herm_values::{Table, Value, poly_depth};

/// As deep polymorphs may nest.
const GREATEST_DEPTH: u32 = 16;

/// Whether a value is one of a type to a degree.
#[tactic(auto, using(crate::proofs::Shaped::shapes))]
#[cycle(types)]
pub fn is_of(types: &TypeTable, degree: Degree, t: TypeNo, v: &Value) -> bool
    requires whole { IsWhole v.now }
    ensures is { result ≡ is_of (degree_view degree) types.now.shapes t.0 (value_view v.now) }
{
    if t.0 as usize >= types.len() {
        return false;
    }
    is_shaped(types, degree, types.shape(t), v)
}

/// Whether a value is one of a type of this shape.
#[tactic(auto, using(herm_values::proofs::Seen::layers))]
#[cycle(types)]
fn is_shaped(types: &TypeTable, degree: Degree, shape: &Shape, v: &Value) -> bool
    requires whole { IsWhole v.now }
    ensures is { result ≡ is_shaped (degree_view degree) types.now.shapes (shape_view shape.now) (value_view v.now) }
{
    match v {
        Value::Bool(_) => matches!(shape, Shape::Boolean),
        Value::Int(n) => is_integer_of(shape, n),
        Value::Text(text) => is_text_of(shape, text),
        Value::Tag(i) => is_tag_of(shape, *i),
        Value::Fields(fields) => match shape {
            Shape::Fields(_) => are_fit(types, degree, shape, fields.as_slice()),
            _ => false,
        },
        Value::Case(place, component) => match component_type(shape, *place) {
            Some(t) => is_of(types, Degree::Whole, t, component),
            None => false,
        },
        Value::Table(table) => match shape {
            Shape::Rows { row, keys } => rows_fit(types, *row, table)
                && is_bounded(keys.as_slice(), table),
            _ => false,
        },
        Value::Poly(poly) => match shape {
            Shape::Poly => is_of(types, Degree::Whole, poly.tag(), poly.content())
                && poly_depth(poly.content()) < GREATEST_DEPTH,
            _ => false,
        },
        Value::Call(call) => match shape {
            Shape::CallMessage {
                params: _,
                raises: _,
            } => are_fit(types, degree, shape, call.params()),
            _ => false,
        },
        Value::Inport(_) => matches!(
            shape,
            Shape::Inport {
                message: _,
                facts: _
            }
        ),
        Value::Outport(_) => matches!(shape, Shape::Outport { port: _ }),
    }
}

/// Whether at each place of a record or a callmessage stands what its type says.
#[tactic(auto, using(herm_values::proofs::Seen::layers))]
#[cycle(types)]
fn are_fit(types: &TypeTable, degree: Degree, shape: &Shape, places: &[Option<Value>]) -> bool
    requires whole { AllWhole places.now }
    ensures is { result ≡ fits types.now.shapes (exactly (contents (degree_view degree) (shape_view shape.now))) (parts_from (views_of places.now)) }
{
    let mut place = 0;
    'places: for held in places {
        let Some(content) = content_at(degree, shape, place) else {
            return false;
        };
        place += 1;
        let Some(v) = held else {
            if !may_be_empty(content) {
                return false;
            }
            continue;
        };
        let Content::Value(part, t) = content else {
            return false;
        };
        if !is_of(types, part, t, v) {
            return false;
        }
    }
    content_at(degree, shape, place).is_none()
}

/// Whether each row of a table is a whole value of a type.
#[tactic(auto, using(herm_values::proofs::Walked::walk))]
#[cycle(types)]
fn rows_fit(types: &TypeTable, t: TypeNo, table: &Table) -> bool
    requires whole { IsWholeTable table.now }
    ensures is { result ≡ fits types.now.shapes (many t.0) (table_parts table.now) }
{
    let mut next = table.first();
    'rows: while let Some(node) = next {
        next = table.after(node);
        let Some(row) = table.row(node) else {
            return false;
        };
        if !is_of(types, Degree::Whole, t, row) {
            return false;
        }
    }
    true
}
