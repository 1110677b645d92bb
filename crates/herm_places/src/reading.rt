//! What is read at a path.
ghost use Rattle.std.specs.Prelude.{◌≡◌, ◌∷◌, Some, IfSome, option_map};
ghost use Rattle.herm_model.specs.Values.{part_at, inside, readable_of, cell_at, read_at};
ghost use Rattle.herm_values.specs.Keyed.{keyed_view};
ghost use Rattle.herm_values.specs.Whole.{IsWhole, AllWhole};
ghost use Rattle.herm_places.specs.Held.{cell_in, read_in, keyed_places};

use crate::places::held_at;
use herm_values::Value;

/// What a value has at a place: a field or a parameter.
#[tactic(auto, using(crate::proofs::Read::fields))]
fn field_at(v: &Value, place: u32) -> Option<&Value>
    ensures keyed { option_map (λ v. keyed_view v.now) result ≡ part_at place (inside (Some (keyed_view v.now))) }
    ensures whole { IsWhole v.now → IfSome result (λ v. IsWhole v.now) }
{
    match v {
        Value::Bool(_) => None,
        Value::Int(_) => None,
        Value::Text(_) => None,
        Value::Tag(_) => None,
        Value::Fields(fields) => held_at(fields.as_slice(), place),
        Value::Case(_, _) => None,
        Value::Table(_) => None,
        Value::Poly(_) => None,
        Value::Call(call) => held_at(call.params(), place),
        Value::Inport(_) => None,
        Value::Outport(_) => None,
    }
}

/// What a value has at a place: a field, a parameter, or the component that is there.
#[tactic(auto, using(crate::proofs::Read::fields))]
fn readable_at(v: &Value, place: u32) -> Option<&Value>
    ensures keyed { option_map (λ v. keyed_view v.now) result ≡ part_at place (readable_of (Some (keyed_view v.now))) }
    ensures whole { IsWhole v.now → IfSome result (λ v. IsWhole v.now) }
{
    match v {
        Value::Bool(_) => None,
        Value::Int(_) => None,
        Value::Text(_) => None,
        Value::Tag(_) => None,
        Value::Fields(_) => field_at(v, place),
        Value::Case(component, content) => {
            if *component == place {
                Some(content)
            } else {
                None
            }
        }
        Value::Table(_) => None,
        Value::Poly(_) => None,
        Value::Call(_) => field_at(v, place),
        Value::Inport(_) => None,
        Value::Outport(_) => None,
    }
}

/// What a value has at these parts, reached through records and callmessages.
#[tactic(auto, using(crate::proofs::Read::steps))]
fn value_in<'a>(v: &'a Value, parts: &[u32]) -> Option<&'a Value>
    ensures keyed { option_map (λ v. keyed_view v.now) result ≡ cell_in parts.now (keyed_view v.now) }
    ensures whole { IsWhole v.now → IfSome result (λ v. IsWhole v.now) }
{
    match parts.split_first() {
        None => Some(v),
        Some((step, rest)) => match field_at(v, *step) {
            Some(inner) => value_in(inner, rest),
            None => None,
        },
    }
}

/// What a value has at these parts, reached through components too.
#[tactic(auto, using(crate::proofs::Read::steps))]
fn read_in<'a>(v: &'a Value, parts: &[u32]) -> Option<&'a Value>
    ensures keyed { option_map (λ v. keyed_view v.now) result ≡ read_in parts.now (keyed_view v.now) }
    ensures whole { IsWhole v.now → IfSome result (λ v. IsWhole v.now) }
{
    match parts.split_first() {
        None => Some(v),
        Some((step, rest)) => match readable_at(v, *step) {
            Some(inner) => read_in(inner, rest),
            None => None,
        },
    }
}

/// What stands at a place, or at these steps behind it, reached through records and callmessages.
#[tactic(auto, using(crate::proofs::Read::starts))]
pub fn value_at<'a>(places: &'a [Option<Value>], place: u32, rest: &[u32]) -> Option<&'a Value>
    ensures keyed { option_map (λ v. keyed_view v.now) result ≡ cell_at (place ∷ rest.now) (keyed_places places.now) }
    ensures whole { AllWhole places.now → IfSome result (λ v. IsWhole v.now) }
{
    match held_at(places, place) {
        Some(v) => value_in(v, rest),
        None => None,
    }
}

/// What a value has at these parts, reached through components too: itself where there are none.
#[inline(always)]
#[tactic(auto, using(crate::proofs::Read::steps))]
fn read_from<'a>(v: &'a Value, parts: &[u32]) -> Option<&'a Value>
    ensures keyed { option_map (λ v. keyed_view v.now) result ≡ read_in parts.now (keyed_view v.now) }
    ensures whole { IsWhole v.now → IfSome result (λ v. IsWhole v.now) }
{
    if parts.is_empty() {
        return Some(v);
    }
    read_in(v, parts)
}

/// What stands at a place, or at these steps behind it, reached through components too.
#[inline(always)]
#[tactic(auto, using(crate::proofs::Read::starts))]
pub fn read_at<'a>(places: &'a [Option<Value>], place: u32, rest: &[u32]) -> Option<&'a Value>
    ensures keyed { option_map (λ v. keyed_view v.now) result ≡ read_at (place ∷ rest.now) (keyed_places places.now) }
    ensures whole { AllWhole places.now → IfSome result (λ v. IsWhole v.now) }
{
    match held_at(places, place) {
        Some(v) => read_from(v, rest),
        None => None,
    }
}
