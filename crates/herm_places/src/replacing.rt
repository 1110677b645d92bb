//! A value is put where nothing stands, or a value of one cell that is finalised at once.
ghost use Rattle.std.specs.Prelude.{◌≡◌, ◌<◌, ◌∷◌, [], length, Some, None, IfSome, IfOk, IfErr, OnOk, OnErr, IsTrue, is_ok, is_some, option_map};
ghost use Rattle.herm_model.specs.Values.{cell_at, change_inside, has_value, inside, kind_of, part_at, put_at, set_at, size};
ghost use Rattle.herm_values.specs.Keyed.{keyed_view};
ghost use Rattle.herm_values.specs.View.{value_view};
ghost use Rattle.herm_values.specs.Whole.{IsWhole, AllWhole};
ghost use Rattle.herm_places.specs.Held.{keyed_places, seen_places};
ghost use Rattle.herm_places.specs.Plain.{IsPlain, fields_in, has_replaceable, is_plain_kind, is_replaceable};

use crate::places::{held_at, set};
use herm_values::Value;

/// Whether the value is a scalar or an outport: one cell, which is finalised at once.
#[tactic(auto, using(herm_values::proofs::Seen::layers))]
pub fn is_plain(v: &Value) -> bool
    ensures kind { result ≡ is_plain_kind (kind_of (value_view v.now)) }
    ensures plain { IsTrue result → IsPlain (value_view v.now) }
{
    match v {
        Value::Bool(_) => true,
        Value::Int(_) => true,
        Value::Text(_) => true,
        Value::Tag(_) => true,
        Value::Fields(_) => false,
        Value::Case(_, _) => false,
        Value::Table(_) => false,
        Value::Poly(_) => false,
        Value::Call(_) => false,
        Value::Inport(_) => false,
        Value::Outport(_) => true,
    }
}

/// Whether something stands at a place. None where it is no scalar and no outport.
#[tactic(auto, using(crate::proofs::Replaced::here))]
fn plain_here(places: &[Option<Value>], place: u32) -> Option<bool>
    ensures done { is_some result ≡ is_replaceable (part_at place (seen_places places.now)) }
    ensures held { IfSome result (λ b. b ≡ is_some (part_at place (seen_places places.now))) }
    ensures plain { IsTrue (is_some result) → IfSome (part_at place (seen_places places.now)) IsPlain }
{
    match held_at(places, place) {
        None => Some(false),
        Some(old) => {
            if is_plain(old) {
                return Some(true);
            }
            None
        }
    }
}

/// The same of a place that may be behind the last: None there too.
#[inline(always)]
#[tactic(auto, using(crate::proofs::Replaced::here))]
fn plain_at(places: &[Option<Value>], place: u32) -> Option<bool>
    ensures done { is_some result ≡ has_replaceable (seen_places places.now) (place ∷ []) }
    ensures held { IfSome result (λ b. b ≡ has_value (seen_places places.now) (place ∷ [])) }
    ensures plain { IsTrue (is_some result) → IfSome (cell_at (place ∷ []) (seen_places places.now)) IsPlain }
    ensures there { IfSome result (λ b. place < length places.now) }
{
    if place as usize >= places.len() {
        return None;
    }
    let answer = plain_here(places, place);
    answer
}

/// The same of a field of a value: None where the value is no record too.
#[inline(always)]
#[tactic(auto, using(crate::proofs::Replaced::in_record))]
fn plain_in_record(held: &Value, field: u32) -> Option<bool>
    ensures done { is_some result ≡ has_replaceable (fields_in (Some (value_view held.now))) (field ∷ []) }
    ensures held { IfSome result (λ b. b ≡ has_value (inside (Some (value_view held.now))) (field ∷ [])) }
    ensures plain { IsTrue (is_some result) → IfSome (cell_at (field ∷ []) (inside (Some (value_view held.now)))) IsPlain }
    ensures there { IfSome result (λ b. field < size (fields_in (Some (value_view held.now)))) }
{
    match held {
        Value::Bool(_) => None,
        Value::Int(_) => None,
        Value::Text(_) => None,
        Value::Tag(_) => None,
        Value::Fields(fields) => plain_at(fields.as_slice(), field),
        Value::Case(_, _) => None,
        Value::Table(_) => None,
        Value::Poly(_) => None,
        Value::Call(_) => None,
        Value::Inport(_) => None,
        Value::Outport(_) => None,
    }
}

/// The same of a field of what stands at a place: None where nothing does too.
#[inline(always)]
#[tactic(auto, using(crate::proofs::Replaced::places))]
fn plain_field(places: &[Option<Value>], place: u32, field: u32) -> Option<bool>
    ensures done { is_some result ≡ has_replaceable (seen_places places.now) (place ∷ field ∷ []) }
    ensures held { IfSome result (λ b. b ≡ has_value (seen_places places.now) (place ∷ field ∷ [])) }
    ensures plain { IsTrue (is_some result) → IfSome (cell_at (place ∷ field ∷ []) (seen_places places.now)) IsPlain }
    ensures there { IfSome result (λ b. field < size (fields_in (part_at place (seen_places places.now)))) }
{
    match held_at(places, place) {
        None => None,
        Some(outer) => plain_in_record(outer, field),
    }
}

/// Puts a value at a field of a record. What stood there is gone.
#[inline(always)]
#[tactic(auto, using(crate::proofs::Replaced::put_within))]
fn put_in_record(held: &mut Value, field: u32, v: Value)
    requires there { field < size (fields_in (Some (value_view held.old))) }
    ensures put { keyed_view held.new ≡ change_inside (set_at (field ∷ []) (Some (keyed_view v))) (keyed_view held.old) }
    ensures whole { IsWhole v → IsWhole held.old → IsWhole held.new }
{
    match held {
        Value::Bool(_) => {}
        Value::Int(_) => {}
        Value::Text(_) => {}
        Value::Tag(_) => {}
        Value::Fields(fields) => set(fields, field, v),
        Value::Case(_, _) => {}
        Value::Table(_) => {}
        Value::Poly(_) => {}
        Value::Call(_) => {}
        Value::Inport(_) => {}
        Value::Outport(_) => {}
    }
}

/// Puts a value at a field of a record that stands at a place.
#[inline(always)]
#[tactic(auto, using(crate::proofs::Replaced::put_within))]
fn put_field(places: &mut Vec<Option<Value>>, place: u32, field: u32, v: Value)
    requires there { field < size (fields_in (part_at place (seen_places places.old.items))) }
    ensures put { keyed_places places.new.items ≡ put_at (place ∷ field ∷ []) (keyed_view v) (keyed_places places.old.items) }
    ensures whole { IsWhole v → AllWhole places.old.items → AllWhole places.new.items }
{
    match &mut places[place as usize] {
        None => {}
        Some(outer) => put_in_record(outer, field, v),
    }
}

/// Puts a value at a field of a record that stands at a place, where nothing stands, or a scalar or an outport. The answer is
/// whether something stood there, or the value itself where there is no such field.
#[tactic(auto, using(crate::proofs::Replaced::places))]
fn replace_field(
    places: &mut Vec<Option<Value>>,
    place: u32,
    field: u32,
    v: Value,
) -> Result<bool, Value>
    ensures done { is_ok result ≡ has_replaceable (seen_places places.old.items) (place ∷ field ∷ []) }
    ensures held { IfOk result (λ b. b ≡ has_value (seen_places places.old.items) (place ∷ field ∷ [])) }
    ensures plain { OnOk result (IfSome (cell_at (place ∷ field ∷ []) (seen_places places.old.items)) IsPlain) }
    ensures put { OnOk result (keyed_places places.new.items ≡ put_at (place ∷ field ∷ []) (keyed_view v) (keyed_places places.old.items)) }
    ensures kept { OnErr result (places.new.items ≡ places.old.items) }
    ensures handed_back { IfErr result (λ w. w ≡ v) }
    ensures whole { IsWhole v → AllWhole places.old.items → AllWhole places.new.items }
{
    let Some(is_there) = plain_field(places.as_slice(), place, field) else {
        return Err(v);
    };
    put_field(places, place, field, v);
    Ok(is_there)
}

/// The same at a place.
#[inline(always)]
#[tactic(auto, using(crate::proofs::Replaced::here))]
fn replace_at_place(places: &mut Vec<Option<Value>>, place: u32, v: Value) -> Result<bool, Value>
    ensures done { is_ok result ≡ has_replaceable (seen_places places.old.items) (place ∷ []) }
    ensures held { IfOk result (λ b. b ≡ has_value (seen_places places.old.items) (place ∷ [])) }
    ensures plain { OnOk result (IfSome (cell_at (place ∷ []) (seen_places places.old.items)) IsPlain) }
    ensures put { OnOk result (keyed_places places.new.items ≡ put_at (place ∷ []) (keyed_view v) (keyed_places places.old.items)) }
    ensures kept { OnErr result (places.new.items ≡ places.old.items) }
    ensures handed_back { IfErr result (λ w. w ≡ v) }
    ensures whole { IsWhole v → AllWhole places.old.items → AllWhole places.new.items }
{
    let Some(is_there) = plain_at(places.as_slice(), place) else {
        return Err(v);
    };
    set(places, place, v);
    Ok(is_there)
}

/// The same at a place, or at a field of a record that stands there, where no further steps follow.
#[inline(always)]
#[tactic(auto, using(crate::proofs::Replaced::places))]
pub fn replace_at(
    places: &mut Vec<Option<Value>>,
    place: u32,
    rest: &[u32],
    v: Value,
) -> Result<bool, Value>
    ensures done { is_ok result ≡ has_replaceable (seen_places places.old.items) (place ∷ rest.now) }
    ensures held { IfOk result (λ b. b ≡ has_value (seen_places places.old.items) (place ∷ rest.now)) }
    ensures plain { OnOk result (IfSome (cell_at (place ∷ rest.now) (seen_places places.old.items)) IsPlain) }
    ensures put { OnOk result (keyed_places places.new.items ≡ put_at (place ∷ rest.now) (keyed_view v) (keyed_places places.old.items)) }
    ensures kept { OnErr result (keyed_places places.new.items ≡ keyed_places places.old.items) }
    ensures handed_back { IfErr result (λ w. w ≡ v) }
    ensures whole { IsWhole v → AllWhole places.old.items → AllWhole places.new.items }
{
    let Some((field, others)) = rest.split_first() else {
        let answer = replace_at_place(places, place, v);
        return answer;
    };
    match others.split_first() {
        Some((_step, _further)) => Err(v),
        None => replace_field(places, place, *field, v),
    }
}
