//! Facts, each behind those before it and without repeats.
ghost use Rattle.std.specs.Prelude.{◌≡◌, ◌++◌, ◌∷◌, [], ◌||◌, cond, IfOk, OnOk, IsTrue, ℕ, List, map, flat_map, take};
ghost use Rattle.herm_model.specs.Paths as model;
ghost use Rattle.herm_model.specs.Paths.{same_fact};
ghost use Rattle.herm_model.specs.Types.{TypeTable};
ghost use Rattle.herm_model.specs.Facts.{prefixes, with_prefixes};
ghost use Rattle.herm_model.specs.FactsOfStatements as table;
ghost use Rattle.herm_types.specs.View.{path_view, fact_view};
ghost use Rattle.herm_typestate.specs.Facts.{has_fact};
ghost use Rattle.herm_judge.specs.View.{table_of, variables_of};
ghost use Rattle.herm_effects.specs.Pushed.{IsPushed, IsBegunAt, IsBegun};

use crate::before::facts_before;
use crate::few::{are_few, closed_few};
use crate::paths::{copy, parent_of};
use herm_judge::{Frame, passes_component};
use herm_types::{Fact, Path};
use herm_typestate::{State, same_fact};
use std::alloc::{AllocError, Global};

/// Whether a path passes through no component and the set has a value at it.
fn is_begun_at(frame: &Frame, seen: &State, path: Path) -> bool
    ensures { IsTrue result → IsBegunAt (table_of frame.now) (variables_of frame.now) (has_fact seen.now) (path_view path) }
{
    if passes_component(frame, &path) {
        return false;
    }
    seen.holds(&Fact::Init(path))
}

/// Whether the set has a value where the fact needs one before it; then it has all facts before it. Where false, it may have
/// them too.
fn is_begun(alloc: Global, frame: &Frame, seen: &State, fact: &Fact) -> Result<bool, AllocError>
    ensures { IfOk result (λ begun. IsTrue begun → IsBegun (table_of frame.now) (variables_of frame.now) (has_fact seen.now) (fact_view fact.now)) }
{
    match fact {
        Fact::Init(p) => {
            let parts = p.parts.as_slice();
            if parts.len() == 0 {
                return Ok(true);
            }
            let parent = parent_of(alloc, p)?;
            Ok(is_begun_at(frame, seen, parent))
        }
        Fact::Case(p, _) => {
            let path = copy(alloc, p)?;
            Ok(is_begun_at(frame, seen, path))
        }
    }
}

/// Appends a fact that is not in the set, and adds it to the set.
#[tactic(auto, using(crate::proofs::Repeats::held_already))]
fn push_new(
    alloc: Global,
    seen: &mut State,
    fact: Fact,
    out: &mut Vec<Fact>,
) -> Result<(), AllocError>
    ensures out { OnOk result (map fact_view out.new.items ≡ map fact_view out.old.items ++ cond (has_fact seen.old (fact_view fact)) [] (fact_view fact ∷ [])) }
    ensures seen { OnOk result ((f : model.Fact) → has_fact seen.new f ≡ (same_fact f (fact_view fact) || has_fact seen.old f)) }
{
    if seen.holds(&fact) {
        return Ok(());
    }
    seen.make(alloc, &fact)?;
    out.push(fact)?;
    Ok(())
}

/// Appends those facts that are not in the set, and adds them to the set.
fn push_each_new(
    alloc: Global,
    seen: &mut State,
    facts: Vec<Fact>,
    out: &mut Vec<Fact>,
) -> Result<(), AllocError>
    ensures { OnOk result ((fs : List model.Fact) → IsPushed (has_fact seen.old) (map fact_view out.old.items) fs → IsPushed (has_fact seen.new) (map fact_view out.new.items) (fs ++ map fact_view facts.items)) }
{
    for fact in facts {
        push_new(alloc, seen, fact, out)?;
    }
    Ok(())
}

/// Appends the facts before a fact that are not in the set, and adds them to it. Where the fact is begun there are none.
fn push_before(
    alloc: Global,
    frame: &Frame,
    seen: &mut State,
    fact: &Fact,
    out: &mut Vec<Fact>,
) -> Result<(), AllocError>
    ensures { OnOk result ((fs : List model.Fact) → IsPushed (has_fact seen.old) (map fact_view out.old.items) (flat_map (with_prefixes (table_of frame.now) (variables_of frame.now)) fs) → IsPushed (has_fact seen.new) (map fact_view out.new.items) (flat_map (with_prefixes (table_of frame.now) (variables_of frame.now)) fs ++ prefixes (table_of frame.now) (variables_of frame.now) (fact_view fact.now))) }
{
    if is_begun(alloc, frame, seen, fact)? {
        return Ok(());
    }
    let before = facts_before(alloc, frame, fact)?;
    push_each_new(alloc, seen, before, out)?;
    Ok(())
}

/// Appends a fact with those before it, those that are not in the set, and adds them to it.
fn push_closed(
    alloc: Global,
    frame: &Frame,
    seen: &mut State,
    fact: Fact,
    out: &mut Vec<Fact>,
) -> Result<(), AllocError>
    ensures { OnOk result ((fs : List model.Fact) → IsPushed (has_fact seen.old) (map fact_view out.old.items) (flat_map (with_prefixes (table_of frame.now) (variables_of frame.now)) fs) → IsPushed (has_fact seen.new) (map fact_view out.new.items) (flat_map (with_prefixes (table_of frame.now) (variables_of frame.now)) (fs ++ fact_view fact ∷ []))) }
{
    if seen.holds(&fact) {
        return Ok(());
    }
    push_before(alloc, frame, seen, &fact, out)?;
    push_new(alloc, seen, fact, out)?;
    Ok(())
}

/// The facts by a set of those that were pushed, which finds a fact in the time of its path.
fn closed_by_set(alloc: Global, frame: &Frame, facts: Vec<Fact>) -> Result<Vec<Fact>, AllocError>
    ensures { IfOk result (λ v. map fact_view v.items ≡ table.closed (table_of frame.now) (variables_of frame.now) (map fact_view facts.items)) }
{
    let mut seen = State::empty(alloc, 0)?;
    let mut out = Vec::new(alloc);
    for fact in facts {
        push_closed(alloc, frame, &mut seen, fact, &mut out)?;
    }
    Ok(out)
}

/// Whether the fact is that a variable has a value, before which there is none.
fn is_of_variable(fact: &Fact) -> bool
    ensures { IsTrue result → (types : TypeTable) (variables : List ℕ) → prefixes types variables (fact_view fact.now) ≡ [] }
{
    match fact {
        Fact::Init(path) => path.parts.as_slice().is_empty(),
        Fact::Case(_, _) => false,
    }
}

/// Whether there is one fact, before which there is none.
fn is_alone(facts: &[Fact]) -> bool
    ensures { IsTrue result → (types : TypeTable) (variables : List ℕ) → table.closed types variables (map fact_view facts.now) ≡ map fact_view facts.now }
{
    match facts {
        [fact] => is_of_variable(fact),
        _ => false,
    }
}

/// Whether there is one fact twice, before which there is none. So it is where a variable's value without parts is to be full.
fn is_twice(facts: &[Fact]) -> bool
    ensures { IsTrue result → (types : TypeTable) (variables : List ℕ) → table.closed types variables (map fact_view facts.now) ≡ take 1 (map fact_view facts.now) }
{
    match facts {
        [fact, other] => is_of_variable(fact) && same_fact(fact, other),
        _ => false,
    }
}

/// The first of the facts.
fn first(mut facts: Vec<Fact>) -> Vec<Fact>
    ensures { map fact_view result.items ≡ take 1 (map fact_view facts.items) }
{
    facts.truncate(1);
    facts
}

/// The facts, each behind those before it and without repeats.
pub fn closed(alloc: Global, frame: &Frame, facts: Vec<Fact>) -> Result<Vec<Fact>, AllocError>
    ensures { IfOk result (λ v. map fact_view v.items ≡ table.closed (table_of frame.now) (variables_of frame.now) (map fact_view facts.items)) }
{
    if facts.is_empty() {
        return Ok(facts);
    }
    if is_alone(facts.as_slice()) {
        return Ok(facts);
    }
    if is_twice(facts.as_slice()) {
        return Ok(first(facts));
    }
    if are_few(facts.as_slice()) {
        let found = closed_few(alloc, frame, facts)?;
        return Ok(found);
    }
    let found = closed_by_set(alloc, frame, facts)?;
    Ok(found)
}
