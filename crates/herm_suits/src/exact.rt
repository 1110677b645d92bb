//! Whether values stand exactly where listed facts tell of them.
ghost use Rattle.std.specs.Prelude.{◌≡◌, ◌∷◌, ◌++◌, [], IfSome, Some, is_some, option_map, map};
ghost use Rattle.herm_model.specs.Lists.{all_pass};
ghost use Rattle.herm_model.specs.Paths.{is_at_or_below};
ghost use Rattle.herm_model.specs.Values.{part, no_parts, cell_at};
ghost use Rattle.herm_model.specs.FactsOfValues.{is_component};
ghost use Rattle.herm_types.specs.View.{fact_view};
ghost use Rattle.herm_values.specs.Parts.{parts_from};
ghost use Rattle.herm_values.specs.View.{value_view, views_of};
ghost use Rattle.herm_suits.specs.Exact.{steps_of, is_on_way, is_within, are_within, is_met, is_exact};

use crate::keys::field_at;
use herm_types::Fact;
use herm_values::Value;

/// The parts to go down to what a fact speaks of.
fn parts_of(fact: &Fact) -> &[u32]
    ensures { result.now ≡ steps_of (fact_view fact.now) }
{
    match fact {
        Fact::Init(path) => path.parts.as_slice(),
        Fact::Case(path, _) => path.parts.as_slice(),
    }
}

/// What a value has at these parts, reached through records and callmessages.
#[tactic(auto, using(herm_values::proofs::Reached::steps))]
fn value_at<'a>(v: &'a Value, parts: &[u32]) -> Option<&'a Value>
    ensures { option_map (λ v. value_view v.now) result ≡ cell_at (0 ∷ parts.now) (part (value_view v.now) no_parts) }
{
    match parts.split_first() {
        None => Some(v),
        Some((step, rest)) => match field_at(v, *step) {
            Some(inner) => value_at(inner, rest),
            None => None,
        },
    }
}

/// Whether the value is a variant with this component.
fn has_component(v: &Value, component: u32) -> bool
    ensures { result ≡ is_component (Some (value_view v.now)) component }
{
    match v {
        Value::Bool(_) => false,
        Value::Int(_) => false,
        Value::Text(_) => false,
        Value::Tag(_) => false,
        Value::Fields(_) => false,
        Value::Case(place, _) => *place == component,
        Value::Table(_) => false,
        Value::Poly(_) => false,
        Value::Call(_) => false,
        Value::Inport(_) => false,
        Value::Outport(_) => false,
    }
}

/// Whether there is a value at these parts.
fn is_there(v: &Value, parts: &[u32]) -> bool
    ensures { result ≡ is_some (cell_at (0 ∷ parts.now) (part (value_view v.now) no_parts)) }
{
    match value_at(v, parts) {
        Some(_) => true,
        None => false,
    }
}

/// Whether the value at these parts is a variant with this component.
fn is_case(v: &Value, parts: &[u32], component: u32) -> bool
    ensures { result ≡ is_component (cell_at (0 ∷ parts.now) (part (value_view v.now) no_parts)) component }
{
    match value_at(v, parts) {
        Some(there) => has_component(there, component),
        None => false,
    }
}

/// Whether what a fact speaks of is there, and has the component.
fn is_met(v: &Value, fact: &Fact) -> bool
    ensures { result ≡ is_met (value_view v.now) (fact_view fact.now) }
{
    match fact {
        Fact::Init(path) => is_there(v, path.parts.as_slice()),
        Fact::Case(path, component) => is_case(v, path.parts.as_slice(), *component),
    }
}

/// Whether each fact is met.
fn are_met(v: &Value, facts: &[Fact]) -> bool
    ensures { result ≡ all_pass (is_met (value_view v.now)) (map fact_view facts.now) }
{
    for fact in facts {
        if !is_met(v, fact) {
            return false;
        }
    }
    true
}

/// Whether a path begins with this step.
fn is_first(step: usize, whole: &[u32]) -> bool
    ensures { result ≡ is_at_or_below (step ∷ []) whole.now }
{
    match whole.split_first() {
        None => false,
        Some((first, _)) => step == *first as usize,
    }
}

/// Whether a path begins with these parts and then this step.
fn leads_through(path: &[u32], step: usize, whole: &[u32]) -> bool
    ensures { result ≡ is_at_or_below (path.now ++ step ∷ []) whole.now }
{
    match path.split_first() {
        None => is_first(step, whole),
        Some((next, others)) => match whole.split_first() {
            None => false,
            Some((first, rest)) => *next == *first && leads_through(others, step, rest),
        },
    }
}

/// The parts and this step, where a fact's path begins with them.
#[tactic(auto, using(crate::proofs::Ways::ways))]
fn on_way_to<'a>(fact: &'a Fact, path: &[u32], step: usize) -> Option<&'a [u32]>
    ensures there { is_some result ≡ is_at_or_below (path.now ++ step ∷ []) (steps_of (fact_view fact.now)) }
    ensures parts { IfSome result (λ p. p.now ≡ path.now ++ step ∷ []) }
{
    let parts = parts_of(fact);
    if leads_through(path, step, parts) {
        return Some(&parts[..path.len() + 1]);
    }
    None
}

/// The parts and this step, where some fact's path begins with them.
fn further<'a>(facts: &'a [Fact], path: &[u32], step: usize) -> Option<&'a [u32]>
    ensures there { is_some result ≡ is_on_way (map fact_view facts.now) (path.now ++ step ∷ []) }
    ensures parts { IfSome result (λ p. p.now ≡ path.now ++ step ∷ []) }
{
    for fact in facts {
        if let Some(parts) = on_way_to(fact, path, step) {
            return Some(parts);
        }
    }
    None
}

/// Whether each value in a value at these parts is on the way to a fact.
#[tactic(auto, using(herm_values::proofs::Seen::layers))]
#[cycle(within)]
fn is_within(v: &Value, facts: &[Fact], path: &[u32]) -> bool
    ensures within { result ≡ is_within (value_view v.now) (map fact_view facts.now) path.now }
{
    match v {
        Value::Bool(_) => true,
        Value::Int(_) => true,
        Value::Text(_) => true,
        Value::Tag(_) => true,
        Value::Fields(fields) => are_within(fields.as_slice(), facts, path),
        Value::Case(_, _) => true,
        Value::Table(_) => true,
        Value::Poly(_) => true,
        Value::Call(call) => are_within(call.params(), facts, path),
        Value::Inport(_) => true,
        Value::Outport(_) => true,
    }
}

/// Whether each value at these places is on the way to a fact, and each value in it.
#[cycle(within)]
fn are_within(places: &[Option<Value>], facts: &[Fact], path: &[u32]) -> bool
    ensures within { result ≡ are_within (parts_from (views_of places.now)) (map fact_view facts.now) path.now 0 }
{
    let mut place = 0;
    'places: for held in places {
        let step = place;
        place += 1;
        let Some(v) = held else {
            continue;
        };
        let Some(next) = further(facts, path, step) else {
            return false;
        };
        if !is_within(v, facts, next) {
            return false;
        }
    }
    true
}

/// Whether what each fact speaks of is there, and each value in a value is on the way to a fact.
pub fn is_exact(v: &Value, facts: &[Fact]) -> bool
    ensures exact { result ≡ is_exact (value_view v.now) (map fact_view facts.now) }
{
    are_met(v, facts) && is_within(v, facts, &[])
}
