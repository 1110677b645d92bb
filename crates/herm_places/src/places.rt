//! One place of several, with a value or empty.
ghost use Rattle.std.specs.Prelude.{◌≡◌, ◌<◌, Some, None, IfSome, length, get_or, option_map, slice_set};
ghost use Rattle.herm_values.specs.Keyed.{keyed_view};
ghost use Rattle.herm_values.specs.Whole.{IsWhole, AllWhole};

use herm_values::Value;
use std::mem;

/// What stands at a place, if there is something.
pub fn held_at(places: &[Option<Value>], place: u32) -> Option<&Value>
    ensures held { option_map (λ v. v.now) result ≡ get_or places.now place None }
    ensures keyed { option_map (λ v. keyed_view v.now) result ≡ option_map keyed_view (get_or places.now place None) }
    ensures whole { AllWhole places.now → IfSome result (λ v. IsWhole v.now) }
{
    match places.get(place as usize) {
        Some(held) => held.as_ref(),
        None => None,
    }
}

/// Puts this at a place. The answer is what stood there.
pub fn exchange(places: &mut Vec<Option<Value>>, place: u32, held: Option<Value>) -> Option<Value>
    requires within { place < length places.old.items }
    ensures old { result ≡ get_or places.old.items place None }
    ensures put { places.new.items ≡ slice_set places.old.items place held }
    ensures whole { AllWhole places.old.items → IfSome held IsWhole → AllWhole places.new.items }
    ensures given { AllWhole places.old.items → IfSome result IsWhole }
{
    mem::replace(&mut places[place as usize], held)
}

/// Puts a value at a place.
#[inline(always)]
pub fn set(places: &mut Vec<Option<Value>>, place: u32, v: Value)
    requires within { place < length places.old.items }
    ensures put { places.new.items ≡ slice_set places.old.items place (Some v) }
    ensures whole { AllWhole places.old.items → IsWhole v → AllWhole places.new.items }
{
    places[place as usize] = Some(v);
}
