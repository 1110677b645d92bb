//! Literals: whether they are there, whether they fit, and their types.
ghost use Rattle.std.specs.Prelude.{◌≡◌};
ghost use Rattle.herm_model.specs.Expressions.{tag};
ghost use Rattle.herm_model.specs.Lists.{all_pass};
ghost use Rattle.herm_model.specs.Typed.{is_integer, is_text, is_text_byte};
ghost use Rattle.herm_naming.specs.Fits.{fits_literal, literal_gives};
ghost use Rattle.herm_naming.specs.UnknownNames.{is_literal_there, may_have_value};
ghost use Rattle.herm_model.specs.Types as model;
ghost use Rattle.herm_types.specs.View.{shape_view};
ghost use Rattle.herm_typed.specs.View.{typed_literal_view};
ghost use Rattle.herm_judge.specs.View.{kind};

use crate::shapes::is_names;
use herm_base::TypeNo;
use herm_typed::TypedLiteral;
use herm_types::{Shape, TypeTable};

/// The most bytes of a string.
const GREATEST_TEXT: usize = 4096;

fn may_have_value(shape: &Shape, place: u32) -> bool
    ensures value { result ≡ may_have_value place (shape_view shape.now) }
{
    match shape {
        Shape::Names(values) => (place as usize) < values.len(),
        _ => true,
    }
}

fn is_value_there(types: &TypeTable, t: TypeNo, place: u32) -> bool
    ensures there { result ≡ is_literal_there types.now.shapes (tag t.0 place) }
{
    if t.0 as usize >= types.len() {
        return false;
    }
    may_have_value(types.shape(t), place)
}

/// Whether a value of an enumeration is there: its type is, and has it where it is an enumeration.
pub fn is_literal_there(types: &TypeTable, l: &TypedLiteral) -> bool
    ensures there { result ≡ is_literal_there types.now.shapes (typed_literal_view l.now) }
{
    match l {
        TypedLiteral::Int(_) => true,
        TypedLiteral::Text(_) => true,
        TypedLiteral::Bool(_) => true,
        TypedLiteral::Tag(t, place) => is_value_there(types, *t, *place),
    }
}

/// Whether a number of the code is one of the language.
fn is_integer_fit(n: i64) -> bool
    ensures fits { result ≡ is_integer n }
{
    let _number = n;
    true
}

fn is_text_byte(byte: u8) -> bool
    ensures byte { result ≡ is_text_byte byte }
{
    (32 <= byte && byte <= 126) || byte == 10
}

fn are_text_bytes(bytes: &[u8]) -> bool
    ensures bytes { result ≡ all_pass is_text_byte bytes.now }
{
    'bytes: for byte in bytes {
        if !is_text_byte(*byte) {
            return false;
        }
    }
    true
}

fn is_text_fit(bytes: &[u8]) -> bool
    ensures fits { result ≡ is_text bytes.now }
{
    bytes.len() <= GREATEST_TEXT && are_text_bytes(bytes)
}

/// Whether a literal is one of the language, and `T#v` of an enumeration.
pub fn is_literal_fit(types: &TypeTable, l: &TypedLiteral) -> bool
    ensures fits { result ≡ fits_literal types.now.shapes (typed_literal_view l.now) }
{
    match l {
        TypedLiteral::Int(n) => is_integer_fit(*n),
        TypedLiteral::Text(t) => is_text_fit(t.bytes()),
        TypedLiteral::Bool(_) => true,
        TypedLiteral::Tag(t, _) => is_names(types, Some(*t)),
    }
}

/// The type of a literal.
pub fn literal_gives(l: &TypedLiteral) -> Option<TypeNo>
    ensures gives { (table : model.TypeTable) → kind result ≡ literal_gives table (typed_literal_view l.now) }
{
    match l {
        TypedLiteral::Int(_) => Some(TypeNo(1)),
        TypedLiteral::Text(_) => Some(TypeNo(2)),
        TypedLiteral::Bool(_) => Some(TypeNo(0)),
        TypedLiteral::Tag(t, _) => Some(*t),
    }
}
