//! Sets of the numbers that facts have.
ghost use Rattle.std.specs.Prelude.{◌≡◌, ◌↔◌, ◌⊎◌, ℕ, true, Some, map, IfOk, OnOk};
ghost use Rattle.herm_model.specs.Lists.{IsIn, any_pass};
ghost use Rattle.herm_model.specs.Paths as model;
ghost use Rattle.herm_model.specs.Paths.{path_of, is_at_or_below};
ghost use Rattle.herm_types.specs.View.{path_view, fact_view};
ghost use Rattle.herm_facts.specs.FactNumbers.{number_of};
ghost use Rattle.herm_facts.specs.NumberSets.{has_number};
ghost use Rattle.herm_facts.specs.SparseSets.{has_sparse};

use crate::fact_numbers::FactNumbers;
use crate::number_set::NumberSet;
use crate::sparse_set::SparseSet;
use herm_types::{Fact, Path};
use std::alloc::{AllocError, Global};

/// Adds the fact's number, where it has one.
fn insert_fact(numbers: &FactNumbers, set: &mut NumberSet, fact: &Fact) -> Result<(), AllocError>
    ensures { OnOk result ((n : ℕ) → (has_number set.new n ≡ true) ↔ ((has_number set.old n ≡ true) ⊎ (number_of numbers.now (fact_view fact.now) ≡ Some n))) }
{
    match numbers.number_of(fact) {
        None => Ok(()),
        Some(number) => {
            set.insert(number)?;
            Ok(())
        }
    }
}

/// Adds the numbers of the facts at the path and below. The list is for use while it does so.
fn insert_below(
    numbers: &FactNumbers,
    set: &mut NumberSet,
    path: &Path,
    below: &mut Vec<usize>,
) -> Result<(), AllocError>
    ensures { OnOk result ((n : ℕ) → (has_number set.new n ≡ true) ↔ ((has_number set.old n ≡ true) ⊎ ((f : model.Fact) × (number_of numbers.now f ≡ Some n) × (is_at_or_below (path_view path.now) (path_of f) ≡ true)))) }
{
    below.clear();
    numbers.below(path, below)?;
    set.insert_all(below.as_slice())?;
    Ok(())
}

impl FactNumbers {
    /// The numbers of those of these facts that have one.
    pub fn set_of(&self, alloc: Global, facts: &[Fact]) -> Result<SparseSet, AllocError>
        ensures { IfOk result (λ set. (n : ℕ) → (has_sparse set n ≡ true) ↔ ((f : model.Fact) × (number_of self.now f ≡ Some n) × IsIn f (map fact_view facts.now))) }
    {
        let mut set = NumberSet::none(alloc);
        for fact in facts {
            insert_fact(self, &mut set, fact)?;
        }
        let sparse = set.sparse(alloc)?;
        Ok(sparse)
    }

    /// The numbers of the facts at these paths and below.
    pub fn set_below(&self, alloc: Global, paths: &[Path]) -> Result<SparseSet, AllocError>
        ensures { IfOk result (λ set. (n : ℕ) → (has_sparse set n ≡ true) ↔ ((f : model.Fact) × (number_of self.now f ≡ Some n) × (any_pass (λ p. is_at_or_below p (path_of f)) (map path_view paths.now) ≡ true))) }
    {
        let mut set = NumberSet::none(alloc);
        let mut below = Vec::new(alloc);
        for path in paths {
            insert_below(self, &mut set, path, &mut below)?;
        }
        let sparse = set.sparse(alloc)?;
        Ok(sparse)
    }
}
