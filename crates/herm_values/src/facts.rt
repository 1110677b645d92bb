//! Whether a value has exactly what facts say.
ghost use Rattle.std.specs.Prelude.{◌≡◌, ◌↔◌, ◌∷◌, ◌++◌, ◌&&◌, [], map, option_map, Some, IsTrue};
ghost use Rattle.herm_model.specs.Lists.{same_numbers, any_pass, all_pass, IsIn};
ghost use Rattle.herm_model.specs.Paths.{init, case, same_fact};
ghost use Rattle.herm_model.specs.Values.{part, no_parts, part_at, cell_at, read_at, inside, readable_of};
ghost use Rattle.herm_model.specs.FactsOfValues.{satisfies, is_component, HasExactly};
ghost use Rattle.herm_types.specs.View.{path_view, fact_view};
ghost use Rattle.herm_values.specs.Meets.{parts_pass, is_closed};
ghost use Rattle.herm_values.specs.Parts.{parts_from};
ghost use Rattle.herm_values.specs.View.{value_view, views_of};

use crate::keys::field_at;
use crate::value::Value;
use herm_types::{Fact, Path};

/// What a value has at these parts, reached through records and callmessages.
#[tactic(auto, using(crate::proofs::Reached::steps))]
fn value_at<'a>(v: &'a Value, parts: &[u32]) -> Option<&'a Value>
    ensures { option_map (λ v. value_view v.now) result ≡ cell_at (0 ∷ parts.now) (part (value_view v.now) no_parts) }
{
    match parts.split_first() {
        None => Some(v),
        Some((step, rest)) => match field_at(v, *step) {
            Some(inner) => value_at(inner, rest),
            None => None,
        },
    }
}

/// What a value has at a place: a field, a parameter, or the component that is there.
#[tactic(auto, using(crate::proofs::Reached::steps))]
fn readable_at(v: &Value, step: u32) -> Option<&Value>
    ensures { option_map (λ v. value_view v.now) result ≡ part_at step (readable_of (Some (value_view v.now))) }
{
    match v {
        Value::Bool(_) => None,
        Value::Int(_) => None,
        Value::Text(_) => None,
        Value::Tag(_) => None,
        Value::Fields(_) => field_at(v, step),
        Value::Case(place, content) => { if *place == step { Some(content) } else { None } }
        Value::Table(_) => None,
        Value::Poly(_) => None,
        Value::Call(_) => field_at(v, step),
        Value::Inport(_) => None,
        Value::Outport(_) => None,
    }
}

/// What a value has at these parts, reached through components too.
#[tactic(auto, using(crate::proofs::Reached::steps))]
fn read_through<'a>(v: &'a Value, parts: &[u32]) -> Option<&'a Value>
    ensures { option_map (λ v. value_view v.now) result ≡ read_at (0 ∷ parts.now) (part (value_view v.now) no_parts) }
{
    match parts.split_first() {
        None => Some(v),
        Some((step, rest)) => match readable_at(v, *step) {
            Some(inner) => read_through(inner, rest),
            None => None,
        },
    }
}

/// Whether the path is this step alone.
fn is_step(step: usize, path: &[u32]) -> bool
    ensures { result ≡ same_numbers (step ∷ []) path.now }
{
    match path.split_first() {
        None => false,
        Some((first, rest)) => step == *first as usize && rest.is_empty(),
    }
}

/// Whether the path is these parts and then this step.
fn is_one_more(parts: &[u32], step: usize, path: &[u32]) -> bool
    ensures { result ≡ same_numbers (parts.now ++ step ∷ []) path.now }
{
    match parts.split_first() {
        None => is_step(step, path),
        Some((next, others)) => match path.split_first() {
            None => false,
            Some((first, rest)) => *next == *first && is_one_more(others, step, rest),
        },
    }
}

/// Whether the fact is init of these parts and then this step.
fn is_init(fact: &Fact, parts: &[u32], step: usize) -> bool
    ensures { result ≡ same_fact (init (0 ∷ (parts.now ++ step ∷ []))) (fact_view fact.now) }
{
    match fact {
        Fact::Init(path) => path.var.0 == 0 && is_one_more(parts, step, path.parts.as_slice()),
        Fact::Case(_, _) => false,
    }
}

/// Whether a fact is init of these parts and then this step.
fn is_said(facts: &[Fact], parts: &[u32], step: usize) -> bool
    ensures { result ≡ any_pass (same_fact (init (0 ∷ (parts.now ++ step ∷ [])))) (map fact_view facts.now) }
{
    for fact in facts {
        if is_init(fact, parts, step) {
            return true;
        }
    }
    false
}

/// Whether the facts have init of each of these places that is not empty.
fn are_said(facts: &[Fact], parts: &[u32], places: &[Option<Value>]) -> bool
    ensures { result ≡ parts_pass (λ i. any_pass (same_fact (init (0 ∷ (parts.now ++ i ∷ [])))) (map fact_view facts.now)) 0 (parts_from (views_of places.now)) }
{
    'places: for place in 0..places.len() {
        if places[place].is_some() && !is_said(facts, parts, place) {
            return false;
        }
    }
    true
}

/// Whether the facts have init of each part of a value at these parts, where it is a record or a callmessage.
#[tactic(auto, using(crate::proofs::Seen::layers))]
fn parts_are_said(facts: &[Fact], parts: &[u32], v: &Value) -> bool
    ensures { result ≡ parts_pass (λ i. any_pass (same_fact (init (0 ∷ (parts.now ++ i ∷ [])))) (map fact_view facts.now)) 0 (inside (Some (value_view v.now))) }
{
    match v {
        Value::Bool(_) => true,
        Value::Int(_) => true,
        Value::Text(_) => true,
        Value::Tag(_) => true,
        Value::Fields(fields) => are_said(facts, parts, fields.as_slice()),
        Value::Case(_, _) => true,
        Value::Table(_) => true,
        Value::Poly(_) => true,
        Value::Call(call) => are_said(facts, parts, call.params()),
        Value::Inport(_) => true,
        Value::Outport(_) => true,
    }
}

/// Whether the value is a variant with this component.
fn has_component(v: &Value, component: u32) -> bool
    ensures { result ≡ is_component (Some (value_view v.now)) component }
{
    match v {
        Value::Bool(_) => false,
        Value::Int(_) => false,
        Value::Text(_) => false,
        Value::Tag(_) => false,
        Value::Fields(_) => false,
        Value::Case(place, _) => *place == component,
        Value::Table(_) => false,
        Value::Poly(_) => false,
        Value::Call(_) => false,
        Value::Inport(_) => false,
        Value::Outport(_) => false,
    }
}

/// Whether there is a value at the path, and the facts have init of each of its parts.
#[tactic(auto, using(crate::proofs::Reached::steps))]
fn is_init_met(v: &Value, facts: &[Fact], path: &Path) -> bool
    ensures { result ≡ (satisfies (part (value_view v.now) no_parts) (init (path_view path.now)) && is_closed (part (value_view v.now) no_parts) (map fact_view facts.now) (init (path_view path.now))) }
{
    if path.var.0 != 0 {
        return false;
    }
    match value_at(v, path.parts.as_slice()) {
        Some(there) => parts_are_said(facts, path.parts.as_slice(), there),
        None => false,
    }
}

/// Whether the value at the path is a variant with this component.
#[tactic(auto, using(crate::proofs::Reached::steps))]
fn is_case_met(v: &Value, path: &Path, component: u32) -> bool
    ensures { result ≡ satisfies (part (value_view v.now) no_parts) (case (path_view path.now) component) }
{
    if path.var.0 != 0 {
        return false;
    }
    match read_through(v, path.parts.as_slice()) {
        Some(there) => has_component(there, component),
        None => false,
    }
}

/// Whether the fact holds of the value, and the facts have init of each part of what an init speaks of.
fn is_met(v: &Value, facts: &[Fact], fact: &Fact) -> bool
    ensures { result ≡ (satisfies (part (value_view v.now) no_parts) (fact_view fact.now) && is_closed (part (value_view v.now) no_parts) (map fact_view facts.now) (fact_view fact.now)) }
{
    match fact {
        Fact::Init(path) => is_init_met(v, facts, path),
        Fact::Case(path, component) => is_case_met(v, path, *component),
    }
}

/// Whether each of some facts is met.
fn are_met(v: &Value, facts: &[Fact], some: &[Fact]) -> bool
    ensures { result ≡ all_pass (λ f. satisfies (part (value_view v.now) no_parts) f && is_closed (part (value_view v.now) no_parts) (map fact_view facts.now) f) (map fact_view some.now) }
{
    for fact in some {
        if !is_met(v, facts, fact) {
            return false;
        }
    }
    true
}

/// Whether the fact is init of the first variable.
fn is_root(fact: &Fact) -> bool
    ensures { result ≡ same_fact (init (0 ∷ [])) (fact_view fact.now) }
{
    match fact {
        Fact::Init(path) => path.var.0 == 0 && path.parts.as_slice().is_empty(),
        Fact::Case(_, _) => false,
    }
}

/// Whether a fact is init of the first variable.
fn is_root_said(facts: &[Fact]) -> bool
    ensures { result ≡ any_pass (same_fact (init (0 ∷ []))) (map fact_view facts.now) }
{
    for fact in facts {
        if is_root(fact) {
            return true;
        }
    }
    false
}

/// Whether the value, taken as variable 0, has a value at exactly the paths of the init facts, looked for through
/// records and callmessages, and the component of each case fact, whose path leads through components too. It takes no
/// memory.
pub fn meets(v: &Value, facts: &[Fact]) -> bool
    ensures exactly { IsTrue result ↔ HasExactly (part (value_view v.now) no_parts) (λ f. IsIn f (map fact_view facts.now)) }
{
    is_root_said(facts) && are_met(v, facts, facts)
}
