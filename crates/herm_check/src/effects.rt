//! What edges do with the facts of one search.
ghost use Rattle.std.specs.Prelude.{◌≡◌, ℕ, ◌≤◌, true, false, Some, map, length, slice_get, IfOk};
ghost use Rattle.herm_model.specs.Lists.{any_pass};
ghost use Rattle.herm_model.specs.Paths.{Fact as FactOf};
ghost use Rattle.herm_model.specs.ControlPaths.{held_at_start};
ghost use Rattle.herm_types.specs.View.{fact_view};
ghost use Rattle.herm_facts.specs.FactSets.{has};
ghost use Rattle.herm_facts.specs.NumberSets.{has_at};
ghost use Rattle.herm_check.specs.declared.effects.Effect.{Effect as EffectOf};
ghost use Rattle.herm_flow.specs.declared.onward.OnwardEdge.{OnwardEdge as EdgeOf};
ghost use Rattle.herm_check.specs.Effects.{AreWords, IsEffectOf, AreEffectsBy, AreEffectsByIn};

use crate::lists::ListsOf;
use herm_facts::{FactSet, SparseSet};
use herm_flow::{OnwardEdge, OnwardFlow};
use herm_types::Fact;
use std::alloc::{AllocError, Global};

/// Of the facts of a search, those that an edge makes, and those that it takes away.
#[derive(Clone, Copy)]
pub struct Effect {
    pub made: FactSet,
    pub killed: FactSet,
}

/// Of each set the word of the search with this number.
fn words_of(alloc: Global, sets: &[SparseSet], search: usize) -> Result<Vec<FactSet>, AllocError>
    ensures { IfOk result (λ words. AreWords sets.now search words.items) }
{
    let mut words = Vec::with_capacity(alloc, sets.len())?;
    for set in sets {
        words.push(set.word(search))?;
    }
    Ok(words)
}

/// The word at a place; behind the last one there is none.
#[inline(always)]
fn word_at(words: &[FactSet], at: usize) -> FactSet
    ensures { (j : ℕ) → has result j ≡ has_at words.now at j }
{
    match words.get(at) {
        Some(word) => *word,
        None => FactSet::none(),
    }
}

/// Whether no word has a number.
fn are_empty(words: &[FactSet]) -> bool
    ensures { result ≡ true → (i j : ℕ) → has_at words.now i j ≡ false }
{
    for i in 0..words.len() {
        if !word_at(words, i).is_empty() {
            return false;
        }
    }
    true
}

/// The words at these places in one.
fn joined(words: &[FactSet], places: &[u32]) -> FactSet
    ensures { (j : ℕ) → has result j ≡ any_pass (λ m. has_at words.now m j) places.now }
{
    let mut all = FactSet::none();
    for at in places {
        all = all.either(word_at(words, *at as usize));
    }
    all
}

/// What the edges do whose lists have these words.
fn effects_by(
    alloc: Global,
    edges: &[OnwardEdge],
    made: &[FactSet],
    gone: &[FactSet],
) -> Result<Vec<Effect>, AllocError>
    ensures many { IfOk result (λ effects. length effects.items ≡ length edges.now) }
    ensures each { IfOk result (λ effects. (n : ℕ) (e : EdgeOf) (effect : EffectOf) → slice_get edges.now n ≡ Some e → slice_get effects.items n ≡ Some effect → IsEffectOf made.now gone.now e effect) }
{
    let mut effects = Vec::with_capacity(alloc, edges.len())?;
    for edge in edges {
        effects.push(Effect {
            made: joined(made, edge.makes.as_slice()),
            killed: word_at(gone, edge.kills as usize),
        })?;
    }
    Ok(effects)
}

/// So many edges that do nothing with the facts of a search.
fn none_done(alloc: Global, count: usize) -> Result<Vec<Effect>, AllocError>
    ensures many { IfOk result (λ effects. length effects.items ≡ count) }
    ensures none { IfOk result (λ effects. (n : ℕ) (effect : EffectOf) (j : ℕ) → slice_get effects.items n ≡ Some effect → (has effect.made j ≡ false) × (has effect.killed j ≡ false)) }
{
    let none = Effect {
        made: FactSet::none(),
        killed: FactSet::none(),
    };
    let effects = vec![in alloc; none; count]?;
    Ok(effects)
}

/// What the edges do whose lists have these words, of which none has a number.
fn effects_none(
    alloc: Global,
    edges: &[OnwardEdge],
    _made: &[FactSet],
    _gone: &[FactSet],
) -> Result<Vec<Effect>, AllocError>
    requires made { (i j : ℕ) → has_at _made.now i j ≡ false }
    requires gone { (i j : ℕ) → has_at _gone.now i j ≡ false }
    ensures many { IfOk result (λ effects. length effects.items ≡ length edges.now) }
    ensures each { IfOk result (λ effects. (n : ℕ) (e : EdgeOf) (effect : EffectOf) → slice_get edges.now n ≡ Some e → slice_get effects.items n ≡ Some effect → IsEffectOf _made.now _gone.now e effect) }
{
    let effects = none_done(alloc, edges.len())?;
    Ok(effects)
}

/// Whether no word of either has a number.
fn are_both_empty(made: &[FactSet], gone: &[FactSet]) -> bool
    ensures made { result ≡ true → (i j : ℕ) → has_at made.now i j ≡ false }
    ensures gone { result ≡ true → (i j : ℕ) → has_at gone.now i j ≡ false }
{
    are_empty(made) && are_empty(gone)
}

/// What the edges do whose lists have these words. Where none of them has a number, the edges are not gone through.
fn effects_with(
    alloc: Global,
    edges: &[OnwardEdge],
    made: &[FactSet],
    gone: &[FactSet],
) -> Result<Vec<Effect>, AllocError>
    ensures many { IfOk result (λ effects. length effects.items ≡ length edges.now) }
    ensures each { IfOk result (λ effects. (n : ℕ) (e : EdgeOf) (effect : EffectOf) → slice_get edges.now n ≡ Some e → slice_get effects.items n ≡ Some effect → IsEffectOf made.now gone.now e effect) }
{
    if are_both_empty(made, gone) {
        let none = effects_none(alloc, edges, made, gone)?;
        return Ok(none);
    }
    let effects = effects_by(alloc, edges, made, gone)?;
    Ok(effects)
}

/// What the edges of a point do with the facts of the search with this number.
fn effects_at(
    alloc: Global,
    edges: &[OnwardEdge],
    lists: &ListsOf,
    search: usize,
) -> Result<Vec<Effect>, AllocError>
    ensures { IfOk result (λ effects. AreEffectsBy lists.now search edges.now effects.items) }
{
    let made = words_of(alloc, lists.made.as_slice(), search)?;
    let gone = words_of(alloc, lists.gone.as_slice(), search)?;
    let effects = effects_with(alloc, edges, made.as_slice(), gone.as_slice())?;
    Ok(effects)
}

/// What the edges of each point do with the facts of the search with this number.
pub fn effects_in(
    alloc: Global,
    flow: &OnwardFlow,
    lists: &[ListsOf],
    search: usize,
) -> Result<Vec<Vec<Effect>>, AllocError>
    requires { length lists.now ≡ length flow.now.points.items }
    ensures { IfOk result (λ effects. AreEffectsByIn flow.now lists.now search effects.items) }
{
    let mut effects = Vec::with_capacity(alloc, flow.points.len())?;
    for i in 0..flow.points.len() {
        let edges = flow.points[i].edges.as_slice();
        effects.push(effects_at(alloc, edges, &lists[i], search)?)?;
    }
    Ok(effects)
}

/// Whether there is a value at the port alone when a process begins.
pub fn is_held_at_start(fact: &Fact) -> bool
    ensures { result ≡ held_at_start (fact_view fact.now) }
{
    match fact {
        Fact::Init(path) => path.var.0 == 0 && path.parts.as_slice().is_empty(),
        Fact::Case(_, _) => false,
    }
}

/// The numbers of the facts that are held when a process begins.
pub fn held_first(facts: &[Fact]) -> FactSet
    requires { length facts.now ≤ 64 }
    ensures { (j : ℕ) (f : FactOf) → slice_get (map fact_view facts.now) j ≡ Some f → has result j ≡ held_at_start f }
{
    let mut held = FactSet::none();
    for number in 0..facts.len() {
        if is_held_at_start(&facts[number]) {
            held = held.with(number);
        }
    }
    held
}
