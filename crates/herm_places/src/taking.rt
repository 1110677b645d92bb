//! What is taken out of a path.
ghost use Rattle.std.specs.Prelude.{◌≡◌, ◌∷◌, Some, None, IfSome, option_map};
ghost use Rattle.herm_model.specs.Values.{cell_at, clear_at, set_at, change_inside};
ghost use Rattle.herm_values.specs.Keyed.{keyed_view};
ghost use Rattle.herm_values.specs.Whole.{IsWhole, AllWhole};
ghost use Rattle.herm_places.specs.Held.{keyed_places, cell_in};

use crate::places::{exchange, set};
use herm_parcels::CallMsg;
use herm_values::Value;

/// Takes out what stands at a place, or at these steps behind it, if anything does.
#[tactic(auto, using(crate::proofs::Put::taken_places))]
#[cycle(taking)]
pub fn take_at(places: &mut Vec<Option<Value>>, place: u32, rest: &[u32]) -> Option<Value>
    ensures taken { option_map keyed_view result ≡ cell_at (place ∷ rest.now) (keyed_places places.old.items) }
    ensures left { keyed_places places.new.items ≡ clear_at (place ∷ rest.now) (keyed_places places.old.items) }
    ensures whole { AllWhole places.old.items → IfSome result IsWhole }
    ensures left_whole { AllWhole places.old.items → AllWhole places.new.items }
{
    if place as usize >= places.len() {
        return None;
    }
    let held = exchange(places, place, None);
    let Some((step, others)) = rest.split_first() else {
        return held;
    };
    let Some(outer) = held else {
        return None;
    };
    let (left, taken) = take_inside(outer, *step, others);
    set(places, place, left);
    taken
}

/// A value without what it has at these steps, and that, if it is there.
#[tactic(auto, using(crate::proofs::Put::taken_inside))]
#[cycle(taking)]
fn take_inside(v: Value, step: u32, others: &[u32]) -> (Value, Option<Value>)
    ensures taken { option_map keyed_view result.1 ≡ cell_in (step ∷ others.now) (keyed_view v) }
    ensures left { keyed_view result.0 ≡ change_inside (set_at (step ∷ others.now) None) (keyed_view v) }
    ensures whole { IsWhole v → IfSome result.1 IsWhole }
    ensures left_whole { IsWhole v → IsWhole result.0 }
{
    match v {
        Value::Bool(b) => (Value::Bool(b), None),
        Value::Int(n) => (Value::Int(n), None),
        Value::Text(text) => (Value::Text(text), None),
        Value::Tag(i) => (Value::Tag(i), None),
        Value::Fields(mut fields) => {
            let taken = take_at(&mut fields, step, others);
            (Value::Fields(fields), taken)
        }
        Value::Case(component, content) => (Value::Case(component, content), None),
        Value::Table(table) => (Value::Table(table), None),
        Value::Poly(poly) => (Value::Poly(poly), None),
        Value::Call(call) => {
            let caller = call.caller();
            let number = call.call();
            let mut params = call.into_params();
            let taken = take_at(&mut params, step, others);
            (Value::Call(CallMsg::new(caller, number, params)), taken)
        }
        Value::Inport(port) => (Value::Inport(port), None),
        Value::Outport(port) => (Value::Outport(port), None),
    }
}
