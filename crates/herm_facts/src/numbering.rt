//! Giving facts numbers, and finding them.
ghost use Rattle.std.specs.Prelude.{◌≡◌, ◌↔◌, ◌⊎◌, ◌++◌, ◌∷◌, [], ℕ, true, false, Some, None, ⊤, map, length, IfOk, OnOk, OnErr};
ghost use Rattle.herm_model.specs.Lists.{IsIn};
ghost use Rattle.herm_model.specs.Paths.{path_of, same_fact, is_at_or_below};
ghost use Rattle.herm_model.specs.Paths as model;
ghost use Rattle.herm_types.specs.View.{path_view, fact_view};
ghost use Rattle.herm_facts.specs.Numbers.{component_of, numbers_at, given, Appends};
ghost use Rattle.herm_facts.specs.FactNumbers.{number_of, AreFacts};

use crate::fact_numbers::FactNumbers;
use crate::numbered;
use crate::numbered::Numbered;
use herm_types::{Fact, Path};
use std::alloc::{AllocError, Global};

fn path_of_fact(fact: &Fact) -> &Path
    ensures { path_view result.now ≡ path_of (fact_view fact.now) }
{
    match fact {
        Fact::Init(path) => path,
        Fact::Case(path, _) => path,
    }
}

fn component_of_fact(fact: &Fact) -> Option<u32>
    ensures { result ≡ component_of (fact_view fact.now) }
{
    match fact {
        Fact::Init(_) => None,
        Fact::Case(_, component) => Some(*component),
    }
}

/// The same steps. Where there are none they take no memory.
fn copy_steps(alloc: Global, steps: &[u32]) -> Result<Vec<u32>, AllocError>
    ensures { IfOk result (λ copy. copy.items ≡ steps.now) }
{
    if steps.is_empty() {
        return Ok(Vec::new(alloc));
    }
    let copy = Vec::from_slice(alloc, steps)?;
    Ok(copy)
}

fn copy_path(alloc: Global, path: &Path) -> Result<Path, AllocError>
    ensures { IfOk result (λ p. path_view p ≡ path_view path.now) }
{
    let parts = copy_steps(alloc, path.parts.as_slice())?;
    Ok(Path {
        var: path.var,
        parts,
    })
}

fn copy_fact(alloc: Global, fact: &Fact) -> Result<Fact, AllocError>
    ensures { IfOk result (λ f. fact_view f ≡ fact_view fact.now) }
{
    match fact {
        Fact::Init(path) => {
            let path = copy_path(alloc, path)?;
            Ok(Fact::Init(path))
        }
        Fact::Case(path, component) => {
            let path = copy_path(alloc, path)?;
            Ok(Fact::Case(path, *component))
        }
    }
}

/// Gives the fact a number.
fn give(
    alloc: Global,
    trees: &mut Vec<Numbered>,
    fact: &Fact,
    number: usize,
) -> Result<(), AllocError>
    ensures ok { OnOk result ((q : model.Path) → numbers_at trees.new.items q ≡ given (path_of (fact_view fact.now)) (component_of (fact_view fact.now)) number q (numbers_at trees.old.items q)) }
    ensures err { OnErr result ((q : model.Path) → numbers_at trees.new.items q ≡ numbers_at trees.old.items q) }
{
    let path = path_of_fact(fact);
    let component = component_of_fact(fact);
    numbered::give(
        alloc,
        trees,
        path.var.0,
        path.parts.as_slice(),
        component,
        number,
    )?;
    Ok(())
}

/// Appends a copy of the fact.
fn push_copy(alloc: Global, facts: &mut Vec<Fact>, fact: &Fact) -> Result<(), AllocError>
    ensures ok { OnOk result (map fact_view facts.new.items ≡ map fact_view facts.old.items ++ fact_view fact.now ∷ []) }
    ensures err { OnErr result (map fact_view facts.new.items ≡ map fact_view facts.old.items) }
{
    let copy = copy_fact(alloc, fact)?;
    facts.push(copy)?;
    Ok(())
}

impl FactNumbers {
    /// No fact has a number.
    pub fn none(alloc: Global) -> FactNumbers
        ensures { (f : model.Fact) → number_of result f ≡ None }
    {
        FactNumbers {
            trees: Vec::new(alloc),
            facts: Vec::new(alloc),
        }
    }

    /// The number of the fact.
    pub fn number_of(&self, fact: &Fact) -> Option<usize>
        ensures { result ≡ number_of self.now (fact_view fact.now) }
    {
        let path = path_of_fact(fact);
        let component = component_of_fact(fact);
        let found = numbered::number_at(
            self.trees.as_slice(),
            path.var.0,
            path.parts.as_slice(),
            component,
        );
        found
    }

    /// Gives the fact the next number, where it has none. It takes memory for a copy of the fact, and for a tree of about 64 bytes at each place up to the number of the variable and, from step to step
    /// of the path, up to the number of the part: a fact of variable n makes room for n + 1 trees. At an error each fact has the number, or none, that it had.
    pub fn add(&mut self, alloc: Global, fact: &Fact) -> Result<usize, AllocError>
        ensures number { IfOk result (λ n. number_of self.new (fact_view fact.now) ≡ Some n) }
        ensures others { OnOk result ((f : model.Fact) → same_fact f (fact_view fact.now) ≡ false → number_of self.new f ≡ number_of self.old f) }
        ensures kept { (f : model.Fact) (n : ℕ) → number_of self.old f ≡ Some n → number_of self.new f ≡ Some n }
        ensures err { OnErr result ((f : model.Fact) → number_of self.new f ≡ number_of self.old f) }
    {
        if let Some(number) = self.number_of(fact) {
            return Ok(number);
        }
        let number = self.facts.len();
        push_copy(alloc, &mut self.facts, fact)?;
        match give(alloc, &mut self.trees, fact, number) {
            Ok(()) => Ok(number),
            Err(error) => {
                self.facts.pop();
                Err(error)
            }
        }
    }

    /// The facts in the order of their numbers.
    pub fn facts(&self) -> &[Fact]
        ensures { AreFacts self.now (map fact_view result.now) }
    {
        self.facts.as_slice()
    }

    /// The facts in the order of their numbers.
    pub fn into_facts(self) -> Vec<Fact>
        ensures { AreFacts self (map fact_view result.items) }
    {
        self.facts
    }

    /// Appends the numbers of the facts at the path and below, each once.
    pub(crate) fn below(&self, path: &Path, out: &mut Vec<usize>) -> Result<(), AllocError>
        ensures kept { OnOk result ((n : ℕ) → IsIn n out.old.items → IsIn n out.new.items) }
        ensures below { OnOk result ((n : ℕ) → IsIn n out.new.items ↔ (IsIn n out.old.items ⊎ ((f : model.Fact) × (number_of self.now f ≡ Some n) × (is_at_or_below (path_view path.now) (path_of f) ≡ true)))) }
        ensures once { OnOk result (Appends ⊤ (λ n. (f : model.Fact) × (number_of self.now f ≡ Some n) × (is_at_or_below (path_view path.now) (path_of f) ≡ true)) out.old.items out.new.items) }
    {
        numbered::push_below(
            self.trees.as_slice(),
            path.var.0,
            path.parts.as_slice(),
            out,
        )?;
        Ok(())
    }
}
