//! Sets of facts.
ghost use Rattle.std.specs.Prelude.{◌≡◌, ◌&&◌, ◌||◌, not, true, false, IfOk, OnOk, OnErr, IsTrue, IsFalse, map};
ghost use Rattle.herm_model.specs.Paths as model;
ghost use Rattle.herm_model.specs.Paths.{path_of, same_fact, is_at_or_below};
ghost use Rattle.herm_types.specs.View.{path_view, fact_view};
ghost use Rattle.herm_typestate.specs.Facts.{has_fact, mark_of};

use crate::state::State;
use crate::tree;
use crate::tree::Mark;
use herm_types::{Fact, Path};
use std::alloc::{AllocError, Global};

fn path_of_fact(fact: &Fact) -> &Path
    ensures { path_view result.now ≡ path_of (fact_view fact.now) }
{
    match fact {
        Fact::Init(path) => path,
        Fact::Case(path, _) => path,
    }
}

fn mark_of_fact(fact: &Fact) -> Mark
    ensures { result ≡ mark_of (fact_view fact.now) }
{
    match fact {
        Fact::Init(_) => Mark::Here,
        Fact::Case(_, component) => Mark::Component(*component),
    }
}

impl State {
    /// The set without facts, with room for so many variables.
    pub fn empty(alloc: Global, vars: usize) -> Result<State, AllocError>
        ensures { IfOk result (λ s. (f : model.Fact) → has_fact s f ≡ false) }
    {
        let vars = Vec::with_capacity(alloc, vars)?;
        Ok(State { vars })
    }

    /// The same set.
    pub fn copy(&self, alloc: Global) -> Result<State, AllocError>
        ensures { IfOk result (λ s. (f : model.Fact) → has_fact s f ≡ has_fact self.now f) }
    {
        let vars = tree::copy(alloc, self.vars.as_slice())?;
        Ok(State { vars })
    }

    /// Adds the fact.
    pub fn make(&mut self, alloc: Global, fact: &Fact) -> Result<(), AllocError>
        ensures ok { OnOk result ((f : model.Fact) → has_fact self.new f ≡ (same_fact f (fact_view fact.now) || has_fact self.old f)) }
        ensures err { OnErr result ((f : model.Fact) → has_fact self.new f ≡ has_fact self.old f) }
    {
        let path = path_of_fact(fact);
        let mark = mark_of_fact(fact);
        tree::make(
            alloc,
            &mut self.vars,
            path.var.0,
            path.parts.as_slice(),
            mark,
        )?;
        Ok(())
    }

    /// Takes the facts at the path and below.
    pub fn kill(&mut self, path: &Path)
        ensures { (f : model.Fact) → has_fact self.new f ≡ (not (is_at_or_below (path_view path.now) (path_of f)) && has_fact self.old f) }
    {
        tree::kill(&mut self.vars, path.var.0, path.parts.as_slice());
    }

    /// Keeps the facts that the other set has too.
    pub fn meet(&mut self, other: &State)
        ensures { (f : model.Fact) → has_fact self.new f ≡ (has_fact self.old f && has_fact other.now f) }
    {
        tree::meet(other.vars.as_slice(), &mut self.vars);
    }

    /// Whether the fact is in the set.
    pub fn holds(&self, fact: &Fact) -> bool
        ensures { result ≡ has_fact self.now (fact_view fact.now) }
    {
        let path = path_of_fact(fact);
        let mark = mark_of_fact(fact);
        let found = tree::holds(
            self.vars.as_slice(),
            path.var.0,
            path.parts.as_slice(),
            mark,
        );
        found
    }

    /// Whether each fact is in the other set; where one is not, there is such a fact.
    pub fn is_below(&self, other: &State) -> bool
        ensures below { IsTrue result → (f : model.Fact) → has_fact self.now f ≡ true → has_fact other.now f ≡ true }
        ensures witness { IsFalse result → (f : model.Fact) × (has_fact self.now f ≡ true) × (has_fact other.now f ≡ false) }
    {
        let below = tree::is_below(self.vars.as_slice(), other.vars.as_slice());
        below
    }
}
