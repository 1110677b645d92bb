//! Facts, each once.
ghost use Rattle.std.specs.Prelude.{◌≡◌, ◌++◌, [], ◌∷◌, List, IfOk, OnOk, map};
ghost use Rattle.herm_model.specs.Paths as model;
ghost use Rattle.herm_model.specs.Facts.{without_repeats};
ghost use Rattle.herm_types.specs.View.{fact_view};
ghost use Rattle.herm_defs.specs.Distinct.{number_key, AreDistinct};

use herm_types::{Fact, Path};
use indexmap::IndexSet;
use std::alloc::{AllocError, Global};

/// Facts, each once, in the order in which they came first.
#[derive(Drop)]
pub struct DistinctFacts {
    facts: Vec<Fact>,
    keys: IndexSet<Vec<u32>>,
}

/// The numbers in front, the variable and the parts of a path.
fn numbers_of(alloc: Global, front: &[u32], path: &Path) -> Result<Vec<u32>, AllocError>
    ensures { IfOk result (λ k. k.items ≡ front.now ++ path.now.var.0 ∷ path.now.parts.items) }
{
    let mut numbers = Vec::from_slice(alloc, front)?;
    numbers.push(path.var.0)?;
    numbers.extend_from_slice(path.parts.as_slice())?;
    Ok(numbers)
}

/// Numbers by which a fact is told from all others.
fn number_key(alloc: Global, fact: &Fact) -> Result<Vec<u32>, AllocError>
    ensures { IfOk result (λ k. k.items ≡ number_key (fact_view fact.now)) }
{
    match fact {
        Fact::Init(path) => {
            let key = numbers_of(alloc, &[0], path)?;
            Ok(key)
        }
        Fact::Case(path, component) => {
            let key = numbers_of(alloc, &[1, *component], path)?;
            Ok(key)
        }
    }
}

impl DistinctFacts {
    pub fn new(alloc: Global) -> DistinctFacts
        ensures { AreDistinct [] result }
    {
        DistinctFacts {
            facts: Vec::new(alloc),
            keys: IndexSet::new(alloc),
        }
    }

    /// Adds a fact that is not there.
    fn add(&mut self, alloc: Global, fact: Fact) -> Result<(), AllocError>
        ensures { OnOk result ((fs : List model.Fact) → AreDistinct fs self.old → AreDistinct (fs ++ fact_view fact ∷ []) self.new) }
    {
        let key = number_key(alloc, &fact)?;
        if !self.keys.insert(key)? {
            return Ok(());
        }
        self.facts.push(fact)?;
        Ok(())
    }

    /// Adds those of these facts that are not there.
    pub fn append(&mut self, alloc: Global, more: Vec<Fact>) -> Result<(), AllocError>
        ensures { OnOk result ((fs : List model.Fact) → AreDistinct fs self.old → AreDistinct (fs ++ map fact_view more.items) self.new) }
    {
        for fact in more {
            self.add(alloc, fact)?;
        }
        Ok(())
    }

    /// The facts in order.
    pub fn into_facts(self) -> Vec<Fact>
        ensures { (fs : List model.Fact) → AreDistinct fs self → map fact_view result.items ≡ without_repeats fs }
    {
        self.facts
    }
}
