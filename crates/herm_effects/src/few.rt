//! A few facts of short paths, each behind those before it and without repeats, by a search among those that were pushed.
ghost use Rattle.std.specs.Prelude.{◌≡◌, ◌++◌, ◌∷◌, [], cond, IfOk, OnOk, List, map, flat_map};
ghost use Rattle.herm_model.specs.Lists.{any_pass};
ghost use Rattle.herm_model.specs.Paths as model;
ghost use Rattle.herm_model.specs.Facts.{prefixes, with_prefixes, without_repeats};
ghost use Rattle.herm_model.specs.FactsOfStatements as table;
ghost use Rattle.herm_types.specs.View.{fact_view};
ghost use Rattle.herm_judge.specs.View.{table_of, variables_of};

use crate::before::facts_before;
use herm_judge::Frame;
use herm_types::{Fact, Path};
use herm_typestate::same_fact;
use std::alloc::{AllocError, Global};

/// How many facts are few.
const FEW: usize = 8;

/// How many steps behind a variable a short path has at most.
const SHORT: usize = 3;

fn is_short(fact: &Fact) -> bool {
    match fact {
        Fact::Init(path) => path.parts.len() <= SHORT,
        Fact::Case(path, _) => path.parts.len() <= SHORT,
    }
}

/// Whether a search among the facts and those before them costs less than a set of them.
pub fn are_few(facts: &[Fact]) -> bool {
    if facts.len() > FEW {
        return false;
    }
    for fact in facts {
        if !is_short(fact) {
            return false;
        }
    }
    true
}

/// Whether the fact is one of these.
fn is_among(facts: &[Fact], fact: &Fact) -> bool
    ensures { result ≡ any_pass (λ g. model.same_fact g (fact_view fact.now)) (map fact_view facts.now) }
{
    for other in facts {
        if same_fact(other, fact) {
            return true;
        }
    }
    false
}

/// Appends a fact that is not among those pushed.
fn push_once(fact: Fact, out: &mut Vec<Fact>) -> Result<(), AllocError>
    ensures { OnOk result (map fact_view out.new.items ≡ map fact_view out.old.items ++ cond (any_pass (λ g. model.same_fact g (fact_view fact)) (map fact_view out.old.items)) [] (fact_view fact ∷ [])) }
{
    if is_among(out.as_slice(), &fact) {
        return Ok(());
    }
    out.push(fact)?;
    Ok(())
}

/// Appends those facts that are not among those pushed.
fn push_each_once(facts: Vec<Fact>, out: &mut Vec<Fact>) -> Result<(), AllocError>
    ensures { OnOk result ((fs : List model.Fact) → map fact_view out.old.items ≡ without_repeats fs → map fact_view out.new.items ≡ without_repeats (fs ++ map fact_view facts.items)) }
{
    for fact in facts {
        push_once(fact, out)?;
    }
    Ok(())
}

/// Appends the facts before a fact, those that are not among those pushed.
fn push_each_before(
    alloc: Global,
    frame: &Frame,
    fact: &Fact,
    out: &mut Vec<Fact>,
) -> Result<(), AllocError>
    ensures { OnOk result ((fs : List model.Fact) → map fact_view out.old.items ≡ without_repeats fs → map fact_view out.new.items ≡ without_repeats (fs ++ prefixes (table_of frame.now) (variables_of frame.now) (fact_view fact.now))) }
{
    let before = facts_before(alloc, frame, fact)?;
    push_each_once(before, out)?;
    Ok(())
}

/// The same. Before a variable's value there is no fact, and before that of a part of it the one that the variable has a value.
fn push_before(
    alloc: Global,
    frame: &Frame,
    fact: &Fact,
    out: &mut Vec<Fact>,
) -> Result<(), AllocError>
    ensures { OnOk result ((fs : List model.Fact) → map fact_view out.old.items ≡ without_repeats fs → map fact_view out.new.items ≡ without_repeats (fs ++ prefixes (table_of frame.now) (variables_of frame.now) (fact_view fact.now))) }
{
    let Fact::Init(path) = fact else {
        push_each_before(alloc, frame, fact, out)?;
        return Ok(());
    };
    match path.parts.as_slice() {
        [] => Ok(()),
        [_] => {
            let parts = Vec::new(alloc);
            let var = path.var;
            push_once(Fact::Init(Path { var, parts }), out)?;
            Ok(())
        }
        _ => {
            push_each_before(alloc, frame, fact, out)?;
            Ok(())
        }
    }
}

/// Appends a fact behind those before it, those that are not among those pushed.
fn push_closed(
    alloc: Global,
    frame: &Frame,
    fact: Fact,
    out: &mut Vec<Fact>,
) -> Result<(), AllocError>
    ensures { OnOk result ((fs : List model.Fact) → map fact_view out.old.items ≡ without_repeats (flat_map (with_prefixes (table_of frame.now) (variables_of frame.now)) fs) → map fact_view out.new.items ≡ without_repeats (flat_map (with_prefixes (table_of frame.now) (variables_of frame.now)) (fs ++ fact_view fact ∷ []))) }
{
    if is_among(out.as_slice(), &fact) {
        return Ok(());
    }
    push_before(alloc, frame, &fact, out)?;
    push_once(fact, out)?;
    Ok(())
}

/// The facts, each behind those before it and without repeats.
pub fn closed_few(alloc: Global, frame: &Frame, facts: Vec<Fact>) -> Result<Vec<Fact>, AllocError>
    ensures { IfOk result (λ v. map fact_view v.items ≡ table.closed (table_of frame.now) (variables_of frame.now) (map fact_view facts.items)) }
{
    let mut out = Vec::with_capacity(alloc, facts.len())?;
    for fact in facts {
        push_closed(alloc, frame, fact, &mut out)?;
    }
    Ok(out)
}
