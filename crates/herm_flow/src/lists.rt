//! The edges of a statement that lead on, with the lists that they name.
ghost use Rattle.std.specs.Prelude.{◌≡◌, ◌<◌, ◌≤◌, ◌⊎◌, ℕ, List, ◌++◌, ◌∷◌, [], IfOk, OnOk, IfSome, IsTrue, length, map, flat_map};
ghost use Rattle.herm_model.specs.Lists.{IsIn};
ghost use Rattle.herm_types.specs.View.{path_view, fact_view};
ghost use Rattle.herm_effects.specs.Rows.{makes_at, kills_at};
ghost use Rattle.herm_flow.specs.OnwardView.{facts_in, paths_in};
ghost use Rattle.herm_flow.specs.declared.leads.Lead.{Lead as LeadOf};
ghost use Rattle.herm_flow.specs.declared.onward.OnwardEdge.{OnwardEdge as EdgeOf};
ghost use Rattle.herm_flow.specs.Listed.{AreAsTabled, AreListed, AreNamed, AreLed, Grows, lead_of, no_list};

use crate::called::lists_of_call;
use crate::changes::{NEAR, are_alike};
use crate::leads::Lead;
use crate::onward::{NO_LIST, OnwardEdge};
use herm_effects::{kills_of, makes_of};
use herm_judge::Frame;
use herm_typed::{Outcome, TypedForm};
use herm_types::{Fact, Path};
use std::alloc::{AllocError, Global};

/// Edges with the lists that they name.
#[derive(Drop)]
pub struct Listed {
    pub made: Vec<Vec<Fact>>,
    pub gone: Vec<Vec<Path>>,
    pub edges: Vec<OnwardEdge>,
}

/// The numbers of the lists that an edge names.
#[derive(Drop)]
struct Named {
    makes: Vec<u32>,
    kills: u32,
}

/// Puts a list behind these, and names it. Want of memory, if its number would not fit in 32 bits or be that of no list.
fn push_list<T: Drop>(list: Vec<T>, lists: &mut Vec<Vec<T>>) -> Result<u32, AllocError>
    ensures lists { OnOk result (lists.new.items ≡ lists.old.items ++ list ∷ []) }
    ensures number { IfOk result (λ n. n ≡ length lists.old.items) }
    ensures few { IfOk result (λ n. n < no_list) }
{
    let number = lists.len();
    if number >= NO_LIST as usize {
        return Err(AllocError);
    }
    lists.push(list)?;
    Ok(number as u32)
}

/// Names a list of these facts, which is put behind the others; none for no facts.
#[tactic(auto, using(crate::proofs::ListedEdges::made_last))]
fn push_made(
    alloc: Global,
    facts: Vec<Fact>,
    made: &mut Vec<Vec<Fact>>,
) -> Result<Vec<u32>, AllocError>
    ensures grows { OnOk result (Grows made.old.items made.new.items) }
    ensures facts { IfOk result (λ v. flat_map (facts_in made.new.items) v.items ≡ map fact_view facts.items) }
    ensures within { IfOk result (λ v. (i : ℕ) → IsIn i v.items → i < length made.new.items) }
{
    let mut numbers = Vec::new(alloc);
    if facts.is_empty() {
        return Ok(numbers);
    }
    let number = push_list(facts, made)?;
    numbers.push(number)?;
    Ok(numbers)
}

/// Names a list of these paths, which is put behind the others; no list for no paths.
#[tactic(auto, using(crate::proofs::ListedEdges::gone_last))]
fn push_gone(paths: Vec<Path>, gone: &mut Vec<Vec<Path>>) -> Result<u32, AllocError>
    requires few { length gone.old.items ≤ no_list }
    ensures grows { OnOk result (Grows gone.old.items gone.new.items) }
    ensures few { OnOk result (length gone.new.items ≤ no_list) }
    ensures paths { IfOk result (λ k. paths_in gone.new.items k ≡ map path_view paths.items) }
    ensures settled { IfOk result (λ k. (k < length gone.new.items) ⊎ (k ≡ no_list)) }
{
    if paths.is_empty() {
        return Ok(NO_LIST);
    }
    let number = push_list(paths, gone)?;
    Ok(number)
}

/// New lists of what an outcome makes and takes away, behind the others.
fn push_lists(
    alloc: Global,
    frame: &Frame,
    form: &TypedForm,
    outcome: Outcome,
    lists: &mut Listed,
) -> Result<Named, AllocError>
    requires few { length lists.old.gone.items ≤ no_list }
    ensures made { OnOk result (Grows lists.old.made.items lists.new.made.items) }
    ensures gone { OnOk result (Grows lists.old.gone.items lists.new.gone.items) }
    ensures edges { lists.new.edges ≡ lists.old.edges }
    ensures few { OnOk result (length lists.new.gone.items ≤ no_list) }
    ensures named { IfOk result (λ n. AreNamed frame.now form.now lists.new.made.items lists.new.gone.items outcome n.makes.items n.kills) }
{
    let facts = makes_of(alloc, frame, form, outcome)?;
    let paths = kills_of(alloc, frame, form, outcome)?;
    let makes = push_made(alloc, facts, &mut lists.made)?;
    let kills = push_gone(paths, &mut lists.gone)?;
    Ok(Named { makes, kills })
}

/// One of the last of these edges whose outcome is found to make and take away the same.
#[tactic(auto, using(crate::proofs::ArgumentLists::read_in))]
fn alike_among<'a>(
    frame: &Frame,
    form: &TypedForm,
    outcome: Outcome,
    edges: &'a [OnwardEdge],
) -> Option<&'a OnwardEdge>
    ensures there { IfSome result (λ e. IsIn e.now edges.now) }
    ensures makes { IfSome result (λ e. makes_at frame.now form.now e.now.outcome ≡ makes_at frame.now form.now outcome) }
    ensures kills { IfSome result (λ e. kills_at frame.now form.now e.now.outcome ≡ kills_at frame.now form.now outcome) }
{
    let first = edges.len().saturating_sub(NEAR);
    'each: for i in first..edges.len() {
        let edge = &edges[i];
        if are_alike(frame, form, edge.outcome, outcome) {
            return Some(edge);
        }
    }
    None
}

/// What one of these edges names, whose outcome is found to make and take away the same.
fn named_already(
    alloc: Global,
    frame: &Frame,
    form: &TypedForm,
    outcome: Outcome,
    lists: &Listed,
) -> Result<Option<Named>, AllocError>
    requires listed { AreListed frame.now form.now lists.now }
    ensures named { IfOk result (λ o. IfSome o (λ n. AreNamed frame.now form.now lists.now.made.items lists.now.gone.items outcome n.makes.items n.kills)) }
{
    match alike_among(frame, form, outcome, lists.edges.as_slice()) {
        Some(edge) => {
            let makes = Vec::from_slice(alloc, edge.makes.as_slice())?;
            let kills = edge.kills;
            Ok(Some(Named { makes, kills }))
        }
        None => Ok(None),
    }
}

/// What an edge names for an outcome: the lists of an edge that is alike, else new ones.
fn name(
    alloc: Global,
    frame: &Frame,
    form: &TypedForm,
    outcome: Outcome,
    lists: &mut Listed,
) -> Result<Named, AllocError>
    requires listed { AreListed frame.now form.now lists.old }
    ensures listed { OnOk result (AreListed frame.now form.now lists.new) }
    ensures edges { lists.new.edges ≡ lists.old.edges }
    ensures named { IfOk result (λ n. AreNamed frame.now form.now lists.new.made.items lists.new.gone.items outcome n.makes.items n.kills) }
{
    let already = named_already(alloc, frame, form, outcome, lists)?;
    match already {
        Some(named) => Ok(named),
        None => {
            let named = push_lists(alloc, frame, form, outcome, lists)?;
            Ok(named)
        }
    }
}

/// Whether an edge leads there and names the same lists.
fn names_same(edge: &OnwardEdge, to: u32, named: &Named) -> bool
    ensures to { IsTrue result → edge.now.to ≡ to }
    ensures makes { IsTrue result → edge.now.makes.items ≡ named.now.makes.items }
    ensures kills { IsTrue result → edge.now.kills ≡ named.now.kills }
{
    edge.to == to && edge.kills == named.kills && edge.makes.as_slice() == named.makes.as_slice()
}

/// Whether one of the last of these edges leads there and names the same lists.
#[tactic(auto, using(crate::proofs::ArgumentLists::read_in))]
fn is_repeated(edges: &[OnwardEdge], to: u32, named: &Named) -> bool
    ensures repeated { IsTrue result → (e : EdgeOf) × IsIn e edges.now × (e.to ≡ to) × (e.makes.items ≡ named.now.makes.items) × (e.kills ≡ named.now.kills) }
{
    let first = edges.len().saturating_sub(NEAR);
    'each: for i in first..edges.len() {
        let edge = &edges[i];
        if names_same(edge, to, named) {
            return true;
        }
    }
    false
}

/// Appends the edge of an outcome that leads on, unless it is found to repeat one of those before it.
fn push_listed(
    alloc: Global,
    frame: &Frame,
    form: &TypedForm,
    lead: Lead,
    lists: &mut Listed,
) -> Result<(), AllocError>
    requires listed { AreListed frame.now form.now lists.old }
    ensures listed { OnOk result (AreListed frame.now form.now lists.new) }
    ensures led { OnOk result ((before : List LeadOf) → AreLed frame.now form.now lists.old.edges.items before → AreLed frame.now form.now lists.new.edges.items (before ++ lead ∷ [])) }
{
    let named = name(alloc, frame, form, lead.outcome, lists)?;
    let is_repeat = is_repeated(lists.edges.as_slice(), lead.to, &named);
    if is_repeat {
        return Ok(());
    }
    lists.edges.push(OnwardEdge {
        outcome: lead.outcome,
        to: lead.to,
        makes: named.makes,
        kills: named.kills,
    })?;
    Ok(())
}

/// The edges of these outcomes without those that are found to repeat others, each with lists of its own but for those that are found alike.
fn lists_of_each(
    alloc: Global,
    frame: &Frame,
    form: &TypedForm,
    leads: &[Lead],
) -> Result<Listed, AllocError>
    ensures listed { IfOk result (λ l. AreListed frame.now form.now l) }
    ensures led { IfOk result (λ l. AreLed frame.now form.now l.edges.items leads.now) }
{
    let mut lists = Listed {
        made: Vec::new(alloc),
        gone: Vec::new(alloc),
        edges: Vec::with_capacity(alloc, leads.len())?,
    };
    'each: for lead in leads {
        push_listed(alloc, frame, form, *lead, &mut lists)?;
    }
    Ok(lists)
}

/// The edges of these outcomes of a form, without those that are found to repeat others, with the lists that they name. Those of a call
/// share what its arguments make.
#[tactic(auto, using(crate::proofs::ListedEdges::listed_as_tabled))]
pub fn lists_of(
    alloc: Global,
    frame: &Frame,
    form: &TypedForm,
    leads: &[Lead],
) -> Result<Listed, AllocError>
    ensures edges { IfOk result (λ l. AreAsTabled frame.now form.now l) }
    ensures led { IfOk result (λ l. AreLed frame.now form.now l.edges.items leads.now) }
{
    match form {
        TypedForm::Call(o, arguments) => {
            let found = lists_of_call(alloc, frame, form, o, arguments.as_slice(), leads)?;
            Ok(found)
        }
        _ => {
            let found = lists_of_each(alloc, frame, form, leads)?;
            Ok(found)
        }
    }
}
