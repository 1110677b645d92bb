//! The scalars that operands are.
ghost use Rattle.std.specs.Prelude.{◌≡◌, option_map, is_some};
ghost use Rattle.herm_values.specs.View.{value_view};
ghost use Rattle.herm_stack.specs.Operands.{scalar_in, boolean_in, integer_in, text_in, tag_in};

use herm_base::Word;
use herm_values::Value;

/// The truth value that this is, if it is one.
pub fn as_boolean(v: &Value) -> Option<bool>
    ensures { result ≡ boolean_in (scalar_in (value_view v.now)) }
{
    match v {
        Value::Bool(b) => Some(*b),
        Value::Int(_) => None,
        Value::Text(_) => None,
        Value::Tag(_) => None,
        Value::Fields(_) => None,
        Value::Case(_, _) => None,
        Value::Table(_) => None,
        Value::Poly(_) => None,
        Value::Call(_) => None,
        Value::Inport(_) => None,
        Value::Outport(_) => None,
    }
}

/// The integer that this is, if it is one.
pub fn as_integer(v: &Value) -> Option<i64>
    ensures { result ≡ integer_in (scalar_in (value_view v.now)) }
{
    match v {
        Value::Bool(_) => None,
        Value::Int(n) => Some(*n),
        Value::Text(_) => None,
        Value::Tag(_) => None,
        Value::Fields(_) => None,
        Value::Case(_, _) => None,
        Value::Table(_) => None,
        Value::Poly(_) => None,
        Value::Call(_) => None,
        Value::Inport(_) => None,
        Value::Outport(_) => None,
    }
}

/// The string that this is, if it is one.
pub fn as_text(v: &Value) -> Option<&Word>
    ensures { option_map (λ w. w.now) result ≡ text_in (scalar_in (value_view v.now)) }
{
    match v {
        Value::Bool(_) => None,
        Value::Int(_) => None,
        Value::Text(text) => Some(text),
        Value::Tag(_) => None,
        Value::Fields(_) => None,
        Value::Case(_, _) => None,
        Value::Table(_) => None,
        Value::Poly(_) => None,
        Value::Call(_) => None,
        Value::Inport(_) => None,
        Value::Outport(_) => None,
    }
}

/// The place of an enumeration's name that this is, if it is one.
pub fn as_tag(v: &Value) -> Option<u32>
    ensures { result ≡ tag_in (scalar_in (value_view v.now)) }
{
    match v {
        Value::Bool(_) => None,
        Value::Int(_) => None,
        Value::Text(_) => None,
        Value::Tag(i) => Some(*i),
        Value::Fields(_) => None,
        Value::Case(_, _) => None,
        Value::Table(_) => None,
        Value::Poly(_) => None,
        Value::Call(_) => None,
        Value::Inport(_) => None,
        Value::Outport(_) => None,
    }
}

/// Whether this is a scalar.
pub fn is_scalar(v: &Value) -> bool
    ensures { result ≡ is_some (scalar_in (value_view v.now)) }
{
    match v {
        Value::Bool(_) => true,
        Value::Int(_) => true,
        Value::Text(_) => true,
        Value::Tag(_) => true,
        Value::Fields(_) => false,
        Value::Case(_, _) => false,
        Value::Table(_) => false,
        Value::Poly(_) => false,
        Value::Call(_) => false,
        Value::Inport(_) => false,
        Value::Outport(_) => false,
    }
}
