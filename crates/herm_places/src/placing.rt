//! What is placed at a path.
ghost use Rattle.std.specs.Prelude.{◌≡◌, ◌∷◌, Some, None, IfSome, IfOk, IfErr, OnOk, OnErr, is_ok, option_map};
ghost use Rattle.herm_model.specs.Values.{cell_at, set_at, put_at, has_place, change_inside, inside};
ghost use Rattle.herm_values.specs.Keyed.{keyed_view};
ghost use Rattle.herm_values.specs.Whole.{IsWhole, AllWhole};
ghost use Rattle.herm_places.specs.Held.{keyed_places, cell_in};

use crate::places::{exchange, set};
use herm_parcels::CallMsg;
use herm_values::Value;

/// Puts a value at a place, or at these steps behind it. The answer is what stood there, or the value itself where there
/// is no such place.
#[tactic(auto, using(crate::proofs::Put::put_places))]
#[cycle(placing)]
pub fn put_at(
    places: &mut Vec<Option<Value>>,
    place: u32,
    rest: &[u32],
    v: Value,
) -> Result<Option<Value>, Value>
    ensures there { is_ok result ≡ has_place (keyed_places places.old.items) (place ∷ rest.now) }
    ensures old { IfOk result (λ o. option_map keyed_view o ≡ cell_at (place ∷ rest.now) (keyed_places places.old.items)) }
    ensures put { OnOk result (keyed_places places.new.items ≡ put_at (place ∷ rest.now) (keyed_view v) (keyed_places places.old.items)) }
    ensures kept { OnErr result (keyed_places places.new.items ≡ keyed_places places.old.items) }
    ensures handed_back { IfErr result (λ w. w ≡ v) }
    ensures old_whole { AllWhole places.old.items → IfOk result (λ o. IfSome o IsWhole) }
    ensures whole { IsWhole v → AllWhole places.old.items → AllWhole places.new.items }
{
    if place as usize >= places.len() {
        return Err(v);
    }
    let Some((step, others)) = rest.split_first() else {
        let old = exchange(places, place, Some(v));
        return Ok(old);
    };
    let Some(outer) = exchange(places, place, None) else {
        return Err(v);
    };
    let (outer, answer) = put_inside(outer, *step, others, v);
    set(places, place, outer);
    answer
}

/// A value with another one at these steps, and what stood there; or as it was, and the other one, where there is no
/// such place.
#[tactic(auto, using(crate::proofs::Put::put_inside))]
#[cycle(placing)]
fn put_inside(
    held: Value,
    step: u32,
    others: &[u32],
    v: Value,
) -> (Value, Result<Option<Value>, Value>)
    ensures there { is_ok result.1 ≡ has_place (inside (Some (keyed_view held))) (step ∷ others.now) }
    ensures old { IfOk result.1 (λ o. option_map keyed_view o ≡ cell_in (step ∷ others.now) (keyed_view held)) }
    ensures put { OnOk result.1 (keyed_view result.0 ≡ change_inside (set_at (step ∷ others.now) (Some (keyed_view v))) (keyed_view held)) }
    ensures kept { OnErr result.1 (keyed_view result.0 ≡ keyed_view held) }
    ensures handed_back { IfErr result.1 (λ w. w ≡ v) }
    ensures old_whole { IsWhole held → IfOk result.1 (λ o. IfSome o IsWhole) }
    ensures whole { IsWhole v → IsWhole held → IsWhole result.0 }
{
    match held {
        Value::Bool(b) => (Value::Bool(b), Err(v)),
        Value::Int(n) => (Value::Int(n), Err(v)),
        Value::Text(text) => (Value::Text(text), Err(v)),
        Value::Tag(i) => (Value::Tag(i), Err(v)),
        Value::Fields(mut fields) => {
            let answer = put_at(&mut fields, step, others, v);
            (Value::Fields(fields), answer)
        }
        Value::Case(component, content) => (Value::Case(component, content), Err(v)),
        Value::Table(table) => (Value::Table(table), Err(v)),
        Value::Poly(poly) => (Value::Poly(poly), Err(v)),
        Value::Call(call) => {
            let caller = call.caller();
            let number = call.call();
            let mut params = call.into_params();
            let answer = put_at(&mut params, step, others, v);
            (Value::Call(CallMsg::new(caller, number, params)), answer)
        }
        Value::Inport(port) => (Value::Inport(port), Err(v)),
        Value::Outport(port) => (Value::Outport(port), Err(v)),
    }
}
