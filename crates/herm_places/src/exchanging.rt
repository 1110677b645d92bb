//! What stands at a path is exchanged, also behind components.
ghost use Rattle.std.specs.Prelude.{◌≡◌, ◌∷◌, IfSome, None, option_map};
ghost use Rattle.herm_model.specs.Values.{change_from, read_at};
ghost use Rattle.herm_places.specs.Held.{keyed_places, read_in, change_in};
ghost use Rattle.herm_values.specs.Keyed.{keyed_view};
ghost use Rattle.herm_values.specs.Whole.{IsWhole, AllWhole};

use crate::places::exchange;
use herm_parcels::CallMsg;
use herm_values::Value;
use std::mem;

/// Puts a value at a place, or at these steps behind it, where something is. The answer is what was there.
#[tactic(auto, using(crate::proofs::Exchanged::exchanging))]
#[cycle(exchanging)]
pub fn exchange_at(
    places: &mut Vec<Option<Value>>,
    place: u32,
    rest: &[u32],
    v: Value,
) -> Option<Value>
    ensures old { option_map keyed_view result ≡ read_at (place ∷ rest.now) (keyed_places places.old.items) }
    ensures new { keyed_places places.new.items ≡ change_from (place ∷ rest.now) (λ d. keyed_view v) 0 (keyed_places places.old.items) }
    ensures old_whole { AllWhole places.old.items → IfSome result IsWhole }
    ensures whole { IsWhole v → AllWhole places.old.items → AllWhole places.new.items }
{
    if place as usize >= places.len() {
        return None;
    }
    let Some(outer) = exchange(places, place, None) else {
        return None;
    };
    let (outer, old) = exchange_in(outer, rest, v);
    let _none = exchange(places, place, Some(outer));
    old
}

/// A value with another one at these steps, where something is, and what was there.
#[tactic(auto, using(crate::proofs::Exchanged::exchanging))]
#[cycle(exchanging)]
fn exchange_in(held: Value, rest: &[u32], v: Value) -> (Value, Option<Value>)
    ensures old { option_map keyed_view result.1 ≡ read_in rest.now (keyed_view held) }
    ensures new { keyed_view result.0 ≡ change_in rest.now (keyed_view v) (keyed_view held) }
    ensures old_whole { IsWhole held → IfSome result.1 IsWhole }
    ensures whole { IsWhole v → IsWhole held → IsWhole result.0 }
{
    let Some((step, others)) = rest.split_first() else {
        return (v, Some(held));
    };
    match held {
        Value::Bool(b) => (Value::Bool(b), None),
        Value::Int(n) => (Value::Int(n), None),
        Value::Text(text) => (Value::Text(text), None),
        Value::Tag(i) => (Value::Tag(i), None),
        Value::Fields(mut fields) => {
            let old = exchange_at(&mut fields, *step, others, v);
            (Value::Fields(fields), old)
        }
        Value::Case(component, mut content) => {
            if component != *step {
                return (Value::Case(component, content), None);
            }
            let inner = mem::replace(&mut *content, Value::Bool(false));
            let (inner, old) = exchange_in(inner, others, v);
            *content = inner;
            (Value::Case(component, content), old)
        }
        Value::Table(table) => (Value::Table(table), None),
        Value::Poly(poly) => (Value::Poly(poly), None),
        Value::Call(call) => {
            let caller = call.caller();
            let number = call.call();
            let mut params = call.into_params();
            let old = exchange_at(&mut params, *step, others, v);
            (Value::Call(CallMsg::new(caller, number, params)), old)
        }
        Value::Inport(port) => (Value::Inport(port), None),
        Value::Outport(port) => (Value::Outport(port), None),
    }
}
