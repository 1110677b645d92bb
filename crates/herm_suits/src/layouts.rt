//! What may stand at the places of a value, by its type's shape.
ghost use Rattle.std.specs.Prelude.{◌≡◌, option_map, slice_get};
ghost use Rattle.herm_model.specs.Lists.{all_pass};
ghost use Rattle.herm_model.specs.Types.{TypeTable};
ghost use Rattle.herm_model.specs.Values as model;
ghost use Rattle.herm_model.specs.Typed as typed;
ghost use Rattle.herm_model.specs.Typed.{is_text, is_text_byte, layout, one_whole, whole, a_value, parameter_content};
ghost use Rattle.herm_types.specs.View.{shape_view, mode_view};
ghost use Rattle.herm_types.specs.Messages.{number_of};
ghost use Rattle.herm_values.specs.View.{leaf};
ghost use Rattle.herm_suits.specs.Decided.{may_be_empty, is_shaped, contents};
ghost use Rattle.herm_suits.specs.View.{degree_view, content_view};

use herm_base::{TypeNo, Word};
use herm_types::{Mode, Param, Part, Shape};

/// The greatest number of bytes of a string.
const MOST_BYTES: usize = 4096;

/// How much of a type's value is there: all that a full value has, or some of it.
#[derive(Clone, Copy)]
pub enum Degree {
    Whole,
    Partly,
}

/// What may stand at a place: a value of a type to a degree, or nothing.
#[derive(Clone, Copy)]
pub enum Content {
    Value(Degree, TypeNo),
    Nothing,
}

/// Whether the byte is a space, a newline, or one from `!` to `~`.
fn is_text_byte(byte: u8) -> bool
    ensures { result ≡ is_text_byte byte }
{
    (32 <= byte && byte <= 126) || byte == 10
}

fn are_text_bytes(bytes: &[u8]) -> bool
    ensures { result ≡ all_pass is_text_byte bytes.now }
{
    for byte in bytes {
        if !is_text_byte(*byte) {
            return false;
        }
    }
    true
}

/// Whether the bytes may be those of a string: at most 4,096, and each is one that strings have.
fn is_text(text: &Word) -> bool
    ensures { result ≡ is_text text.now }
{
    text.bytes().len() <= MOST_BYTES && are_text_bytes(text.bytes())
}

/// Whether a string is one of a type of this shape.
pub fn is_text_of(shape: &Shape, text: &Word) -> bool
    ensures { (d : typed.Degree) (table : TypeTable) → result ≡ is_shaped d table (shape_view shape.now) (leaf (model.a_scalar (model.a_text text.now))) }
{
    match shape {
        Shape::Text => is_text(text),
        _ => false,
    }
}

/// Whether a number is one of a type of this shape: each number of 64 bits is an integer.
pub fn is_integer_of(shape: &Shape, integer: &i64) -> bool
    ensures { (d : typed.Degree) (table : TypeTable) → result ≡ is_shaped d table (shape_view shape.now) (leaf (model.a_scalar (model.an_integer integer.now))) }
{
    let _integer = *integer;
    matches!(shape, Shape::Integer)
}

/// Whether the place of a name is one of an enumeration of this shape.
pub fn is_tag_of(shape: &Shape, place: u32) -> bool
    ensures { (d : typed.Degree) (table : TypeTable) → result ≡ is_shaped d table (shape_view shape.now) (leaf (model.a_scalar (model.a_tag place))) }
{
    match shape {
        Shape::Names(names) => (place as usize) < names.len(),
        _ => false,
    }
}

/// The type of a variant's component.
pub fn component_type(shape: &Shape, place: u32) -> Option<TypeNo>
    ensures { one_whole (number_of result) ≡ layout whole (shape_view shape.now) (model.a_variant place) }
{
    match shape {
        Shape::Cases(parts) => {
            let part = parts.as_slice().get(place as usize)?;
            Some(part.of)
        }
        _ => None,
    }
}

/// What may stand at a parameter's place: where a message is full, a value of one that the caller fills, and nothing else.
fn parameter_content(degree: Degree, param: &Param) -> Content
    ensures { content_view result ≡ parameter_content (degree_view degree) (mode_view param.now.mode) param.now.of.0 }
{
    match degree {
        Degree::Partly => Content::Value(Degree::Partly, param.of),
        Degree::Whole => match param.mode {
            Mode::In => Content::Value(Degree::Whole, param.of),
            Mode::Inout => Content::Value(Degree::Whole, param.of),
            Mode::Out => Content::Nothing,
        },
    }
}

/// What may stand at a field.
fn field_content(degree: Degree, fields: &[Part], place: usize) -> Option<Content>
    ensures { option_map content_view result ≡ option_map (λ p. a_value (degree_view degree) p.of.0) (slice_get fields.now place) }
{
    let field = fields.get(place)?;
    Some(Content::Value(degree, field.of))
}

/// What may stand at a parameter, if there is one.
fn content_of_parameter(degree: Degree, params: &[Param], place: usize) -> Option<Content>
    ensures { option_map content_view result ≡ option_map (λ p. parameter_content (degree_view degree) (mode_view p.mode) p.of.0) (slice_get params.now place) }
{
    let param = params.get(place)?;
    Some(parameter_content(degree, param))
}

/// What may stand at a place of a record or a callmessage.
#[tactic(auto, using(crate::proofs::Shaped::places))]
pub fn content_at(degree: Degree, shape: &Shape, place: usize) -> Option<Content>
    ensures { option_map content_view result ≡ slice_get (contents (degree_view degree) (shape_view shape.now)) place }
{
    match shape {
        Shape::Fields(fields) => field_content(degree, fields.as_slice(), place),
        Shape::CallMessage { params, raises: _ } => content_of_parameter(
            degree,
            params.as_slice(),
            place,
        ),
        _ => None,
    }
}

/// Whether nothing may stand at the place.
pub fn may_be_empty(content: Content) -> bool
    ensures { result ≡ may_be_empty (content_view content) }
{
    match content {
        Content::Value(Degree::Whole, _) => false,
        Content::Value(Degree::Partly, _) => true,
        Content::Nothing => true,
    }
}
