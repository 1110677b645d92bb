//! The lists of points by the numbers that facts have.
ghost use Rattle.std.specs.Prelude.{◌≡◌, ℕ, ◌<◌, ◌+◌, ◌*◌, IfOk};
ghost use Rattle.herm_flow.specs.OnwardView.{facts_in, paths_in};
ghost use Rattle.herm_check.specs.Lists.{at_has, HasFacts, HasBelow, AreListsOf, AreListsIn};

use herm_facts::{FactNumbers, SparseSet};
use herm_flow::{OnwardFlow, OnwardPoint};
use herm_types::{Fact, Path};
use std::alloc::{AllocError, Global};

/// The lists of a point by numbers: of each list of facts their numbers, and of each list of paths the numbers of the facts at them and below.
#[derive(Drop)]
pub struct ListsOf {
    pub made: Vec<SparseSet>,
    pub gone: Vec<SparseSet>,
}

/// The numbers of the facts of each list.
fn made_sets(
    alloc: Global,
    numbers: &FactNumbers,
    made: &[Vec<Fact>],
) -> Result<Vec<SparseSet>, AllocError>
    ensures { IfOk result (λ sets. (i : ℕ) → HasFacts numbers.now (facts_in made.now i) (at_has sets.items i)) }
{
    let mut sets = Vec::with_capacity(alloc, made.len())?;
    for facts in made {
        sets.push(numbers.set_of(alloc, facts.as_slice())?)?;
    }
    Ok(sets)
}

/// The numbers of the facts at the paths of each list and below.
fn gone_sets(
    alloc: Global,
    numbers: &FactNumbers,
    gone: &[Vec<Path>],
) -> Result<Vec<SparseSet>, AllocError>
    ensures { IfOk result (λ sets. (i : ℕ) → HasBelow numbers.now (paths_in gone.now i) (at_has sets.items i)) }
{
    let mut sets = Vec::with_capacity(alloc, gone.len())?;
    for paths in gone {
        sets.push(numbers.set_below(alloc, paths.as_slice())?)?;
    }
    Ok(sets)
}

/// The lists of a point by numbers.
fn lists_at(
    alloc: Global,
    numbers: &FactNumbers,
    point: &OnwardPoint,
) -> Result<ListsOf, AllocError>
    ensures { IfOk result (AreListsOf numbers.now point.now) }
{
    let made = made_sets(alloc, numbers, point.made.as_slice())?;
    let gone = gone_sets(alloc, numbers, point.gone.as_slice())?;
    Ok(ListsOf { made, gone })
}

/// The lists of each point by numbers.
pub fn lists_in(
    alloc: Global,
    flow: &OnwardFlow,
    numbers: &FactNumbers,
) -> Result<Vec<ListsOf>, AllocError>
    ensures { IfOk result (λ lists. AreListsIn numbers.now flow.now lists.items) }
{
    let mut lists = Vec::with_capacity(alloc, flow.points.len())?;
    for point in &flow.points {
        lists.push(lists_at(alloc, numbers, point)?)?;
    }
    Ok(lists)
}
