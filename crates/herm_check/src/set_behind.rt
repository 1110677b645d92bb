//! The numbers of the facts that are held behind an edge.
ghost use Rattle.std.specs.Prelude.{◌≡◌, ◌&&◌, ◌||◌, ℕ, not, IfOk, OnOk};
ghost use Rattle.herm_model.specs.Lists.{any_pass};
ghost use Rattle.herm_model.specs.Paths as model;
ghost use Rattle.herm_model.specs.Paths.{same_fact};
ghost use Rattle.herm_types.specs.View.{fact_view};
ghost use Rattle.herm_facts.specs.NumberSets.{has_number};
ghost use Rattle.herm_facts.specs.FactNumbers.{AreApart};
ghost use Rattle.herm_check.specs.Numberings.{in_set, HasNumber, AreOfFacts};
ghost use Rattle.herm_check.specs.Lists.{at_has, is_made_number, is_killed_number};

use crate::lists::ListsOf;
use herm_facts::{FactNumbers, NumberSet, SparseSet};
use herm_flow::OnwardEdge;
use herm_types::Fact;
use std::alloc::{AllocError, Global};

/// Adds the fact's number.
pub fn hold(numbers: &FactNumbers, held: &mut NumberSet, fact: &Fact) -> Result<(), AllocError>
    requires apart { AreApart numbers.now }
    requires number { HasNumber numbers.now (fact_view fact.now) }
    ensures facts { OnOk result ((f : model.Fact) → in_set numbers.now held.new f ≡ (same_fact f (fact_view fact.now) || in_set numbers.now held.old f)) }
    ensures known { OnOk result (AreOfFacts numbers.now held.old → AreOfFacts numbers.now held.new) }
{
    let Some(number) = numbers.number_of(fact) else {
        unreachable!()
    };
    held.insert(number)?;
    Ok(())
}

/// Adds the numbers of a list, where there is one at the place.
fn join_list(held: &mut NumberSet, made: &[SparseSet], list: u32) -> Result<(), AllocError>
    ensures { OnOk result ((n : ℕ) → has_number held.new n ≡ (has_number held.old n || at_has made.now list n)) }
{
    match made.get(list as usize) {
        Some(set) => {
            held.union(set)?;
            Ok(())
        }
        None => Ok(()),
    }
}

/// Adds the numbers of these lists.
fn join_lists(held: &mut NumberSet, made: &[SparseSet], lists: &[u32]) -> Result<(), AllocError>
    ensures { OnOk result ((n : ℕ) → has_number held.new n ≡ (has_number held.old n || any_pass (λ m. at_has made.now m n) lists.now)) }
{
    for list in lists {
        join_list(held, made, *list)?;
    }
    Ok(())
}

/// Takes the numbers of a list, where there is one at the place.
fn take_list(held: &mut NumberSet, gone: &[SparseSet], list: u32)
    ensures { (n : ℕ) → has_number held.new n ≡ (has_number held.old n && not (at_has gone.now list n)) }
{
    match gone.get(list as usize) {
        Some(set) => held.subtract(set),
        None => {}
    }
}

/// The numbers that are held behind the edge, where these are held before it.
pub fn numbers_behind(
    alloc: Global,
    held: &NumberSet,
    lists: &ListsOf,
    edge: &OnwardEdge,
) -> Result<NumberSet, AllocError>
    ensures { IfOk result (λ after. (n : ℕ) → has_number after n ≡ ((has_number held.now n && not (is_killed_number lists.now edge.now n)) || is_made_number lists.now edge.now n)) }
{
    let mut after = held.copy(alloc)?;
    take_list(&mut after, lists.gone.as_slice(), edge.kills);
    join_lists(&mut after, lists.made.as_slice(), edge.makes.as_slice())?;
    Ok(after)
}
