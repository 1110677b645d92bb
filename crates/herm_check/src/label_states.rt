//! The facts that labels stand for.
ghost use Rattle.std.specs.Prelude.{◌≡◌, ◌&&◌, ◌||◌, ℕ, false, IfOk, OnOk, length, slice_get};
ghost use Rattle.herm_model.specs.Lists.{map_or};
ghost use Rattle.herm_model.specs.Paths as model;
ghost use Rattle.herm_model.specs.Paths.{same_fact};
ghost use Rattle.herm_types.specs.View.{fact_view};
ghost use Rattle.herm_typestate.specs.Facts.{has_fact};
ghost use Rattle.herm_facts.specs.NumberSets.{has_number};
ghost use Rattle.herm_check.specs.Numberings.{in_set};
ghost use Rattle.herm_check.specs.Labelled.{holds_at};

use crate::label::Label;
use herm_facts::{FactNumbers, NumberSet};
use herm_types::Fact;
use herm_typestate::State;
use std::alloc::{AllocError, Global};

/// How many variables have trees in a state of these facts.
fn room_for(facts: &[Fact], held: &NumberSet) -> usize {
    let mut room = 0;
    for number in 0..facts.len() {
        if held.holds(number) {
            let var = match &facts[number] {
                Fact::Init(path) => path.var.0,
                Fact::Case(path, _) => path.var.0,
            };
            room = room.max(var as usize + 1);
        }
    }
    room
}

/// Adds the fact where its number is in the set.
fn make_held(
    alloc: Global,
    state: &mut State,
    held: &NumberSet,
    number: usize,
    fact: &Fact,
) -> Result<(), AllocError>
    ensures { OnOk result ((f : model.Fact) → has_fact state.new f ≡ ((has_number held.now number && same_fact f (fact_view fact.now)) || has_fact state.old f)) }
{
    if !held.holds(number) {
        return Ok(());
    }
    state.make(alloc, fact)?;
    Ok(())
}

/// The facts whose numbers are in the set.
fn state_of(
    alloc: Global,
    numbers: &FactNumbers,
    vars: usize,
    held: &NumberSet,
) -> Result<State, AllocError>
    ensures { IfOk result (λ s. (f : model.Fact) → has_fact s f ≡ in_set numbers.now held.now f) }
{
    let facts = numbers.facts();
    let mut state = State::empty(alloc, vars.min(room_for(facts, held)))?;
    for number in 0..facts.len() {
        make_held(alloc, &mut state, held, number, &facts[number])?;
    }
    Ok(state)
}

/// The facts of each label.
pub fn states(
    alloc: Global,
    numbers: &FactNumbers,
    vars: usize,
    labels: &[Label],
) -> Result<Vec<State>, AllocError>
    ensures many { IfOk result (λ v. length v.items ≡ length labels.now) }
    ensures facts { IfOk result (λ v. (i : ℕ) (f : model.Fact) → map_or false (λ s. has_fact s f) (slice_get v.items i) ≡ holds_at numbers.now labels.now i f) }
{
    let mut at = Vec::with_capacity(alloc, labels.len())?;
    for label in labels {
        at.push(state_of(alloc, numbers, vars, &label.held)?)?;
    }
    Ok(at)
}
