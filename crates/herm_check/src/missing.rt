//! Which needed facts a label lacks, each with a shortest control path.
ghost use Rattle.std.specs.Prelude.{◌≡◌, ◌↔◌, [], ◌∷◌, ◌<◌, ◌≤◌, ℕ, Some, true, false, map, length, slice_get, IfOk, OnOk};
ghost use Rattle.herm_model.specs.Lists.{IsIn};
ghost use Rattle.herm_model.specs.Paths.{Fact as FactOf};
ghost use Rattle.herm_model.specs.Targets.{node};
ghost use Rattle.herm_model.specs.ControlPaths.{Holds, IsReached};
ghost use Rattle.herm_model.specs.MissingFacts.{demands_at, demands};
ghost use Rattle.herm_model.specs.Labels.{AreExact};
ghost use Rattle.herm_model.specs.laws.FlowLaws.{EdgesDiffer};
ghost use Rattle.herm_types.specs.View.{fact_view};
ghost use Rattle.herm_typestate.specs.Facts.{has_fact};
ghost use Rattle.herm_flow.specs.OnwardView.{onward_point_view, onward_flow_view};
ghost use Rattle.herm_check.specs.View.{labels_view};
ghost use Rattle.herm_check.specs.Labelled.{LeadThere};
ghost use Rattle.herm_facts.specs.FactNumbers.{number_of, AreFacts};
ghost use Rattle.herm_check.specs.Searched.{AreSearched};
ghost use Rattle.herm_check.specs.Alike.{AreSearchedBy};
ghost use Rattle.herm_check.specs.Missing.{demand, IsAdded, IsNoted, AreNoted, AreKept, AreMissing};

use crate::alike::{Standing, standing_in};
use crate::lists::lists_in;
use crate::search::{SHARED, Search, lost_place, search_for};
use herm_base::StmtNo;
use herm_facts::FactNumbers;
use herm_flow::{OnwardFlow, OnwardPoint};
use herm_types::Fact;
use herm_typestate::{Labels, State};
use std::alloc::{AllocError, Global};

/// A fact that a statement needs and that is not held on some path to it: the statement; the number of the fact among those that are missing somewhere, and that of
/// the search for it; and the place in the search to which a shortest such path leads.
#[derive(Clone, Copy)]
pub struct MissingAt {
    pub stmt: StmtNo,
    pub fact: usize,
    pub search: usize,
    pub place: usize,
}

/// The facts that are missing, by statement and then in the order of needs; the different ones among them; and the searches for these, several of which share one.
#[derive(Drop)]
pub struct Missing {
    pub lost: Vec<Fact>,
    pub searches: Vec<Search>,
    pub facts: Vec<MissingAt>,
}

/// The lost facts by their numbers; for each of them the number of the fact that stands for it in the searches; and the searches.
#[derive(Drop)]
pub struct Lost {
    pub numbers: FactNumbers,
    pub by: Vec<usize>,
    pub searches: Vec<Search>,
}

/// Gives the fact a number, where a label lacks it and it has none.
fn note_lacking(
    alloc: Global,
    fact: &Fact,
    state: &State,
    lost: &mut FactNumbers,
) -> Result<(), AllocError>
    ensures noted { OnOk result (has_fact state.now (fact_view fact.now) ≡ false → IsNoted lost.new (fact_view fact.now)) }
    ensures kept { OnOk result (AreKept lost.old lost.new) }
{
    if state.holds(fact) {
        return Ok(());
    }
    lost.add(alloc, fact)?;
    Ok(())
}

/// Gives numbers to the facts that a label lacks of the needs of its point.
fn note_point(
    alloc: Global,
    point: &OnwardPoint,
    state: &State,
    lost: &mut FactNumbers,
) -> Result<(), AllocError>
    ensures noted { OnOk result ((f : FactOf) → IsIn f (onward_point_view point.now).needs → has_fact state.now f ≡ false → IsNoted lost.new f) }
    ensures kept { OnOk result (AreKept lost.old lost.new) }
{
    for fact in &point.needs {
        note_lacking(alloc, fact, state, lost)?;
    }
    Ok(())
}

/// The different facts that labels lack of the needs of their points.
fn lost_in(alloc: Global, flow: &OnwardFlow, labels: &Labels) -> Result<FactNumbers, AllocError>
    requires { length labels.now.at.items ≡ length flow.now.points.items }
    ensures noted { IfOk result (AreNoted (onward_flow_view flow.now) labels.now) }
    ensures some { IfOk result (λ lost. (f : FactOf) (n : ℕ) → number_of lost f ≡ Some n → 0 < length flow.now.points.items) }
{
    let mut lost = FactNumbers::none(alloc);
    for (i, point) in flow.points.as_slice().iter().enumerate() {
        note_point(alloc, point, &labels.at[i], &mut lost)?;
    }
    Ok(lost)
}

/// The searches for the facts that have numbers, which these are.
fn searches_of(
    alloc: Global,
    flow: &OnwardFlow,
    lost: &FactNumbers,
    facts: &[Fact],
) -> Result<Vec<Search>, AllocError>
    requires there { LeadThere (onward_flow_view flow.now) }
    requires some { 0 < length facts.now → 0 < length flow.now.points.items }
    requires numbers { AreFacts lost.now (map fact_view facts.now) }
    ensures { IfOk result (λ searches. AreSearched (onward_flow_view flow.now) lost.now searches.items) }
{
    let mut searches = Vec::new(alloc);
    if facts.is_empty() {
        return Ok(searches);
    }
    let lists = lists_in(alloc, flow, lost)?;
    let mut first = 0;
    while first < facts.len() {
        let number = searches.len();
        searches.push(search_for(alloc, flow, lists.as_slice(), lost, number)?)?;
        first += SHARED;
    }
    Ok(searches)
}

/// The searches for the facts that have numbers, one for all facts that the edges treat alike.
fn search_lost(alloc: Global, flow: &OnwardFlow, numbers: FactNumbers) -> Result<Lost, AllocError>
    requires there { LeadThere (onward_flow_view flow.now) }
    requires some { (f : FactOf) (n : ℕ) → number_of numbers f ≡ Some n → 0 < length flow.now.points.items }
    ensures numbers { IfOk result (λ lost. lost.numbers ≡ numbers) }
    ensures searched { IfOk result (λ lost. AreSearchedBy (onward_flow_view flow.now) lost.numbers lost.by.items lost.searches.items) }
{
    let standing = standing_in(alloc, flow, &numbers)?;
    let searches = searches_of(alloc, flow, &standing.numbers, standing.numbers.facts())?;
    let Standing { numbers: _, by } = standing;
    Ok(Lost {
        numbers,
        by,
        searches,
    })
}

/// Appends the fact with its path, where the label of its point lacks it.
fn push_lacking(
    flow: &OnwardFlow,
    at: usize,
    stmt: StmtNo,
    fact: &Fact,
    state: &State,
    lost: &Lost,
    out: &mut Vec<MissingAt>,
) -> Result<(), AllocError>
    requires differ { EdgesDiffer (onward_flow_view flow.now) }
    requires there { LeadThere (onward_flow_view flow.now) }
    requires within { at < length flow.now.points.items }
    requires exact { (f : FactOf) → (has_fact state.now f ≡ true) ↔ Holds (onward_flow_view flow.now) f at }
    requires noted { has_fact state.now (fact_view fact.now) ≡ false → IsNoted lost.now.numbers (fact_view fact.now) }
    requires searched { AreSearchedBy (onward_flow_view flow.now) lost.now.numbers lost.now.by.items lost.now.searches.items }
    ensures { OnOk result (IsAdded (onward_flow_view flow.now) lost.now (demand at stmt.0 (fact_view fact.now) ∷ []) out.old out.new) }
{
    if state.holds(fact) {
        return Ok(());
    }
    let Some(number) = lost.numbers.number_of(fact) else {
        unreachable!()
    };
    let by = lost.by[number];
    let search = by / SHARED;
    let Some(place) = lost_place(flow, &lost.searches[search], at, by % SHARED) else {
        unreachable!()
    };
    out.push(MissingAt {
        stmt,
        fact: number,
        search,
        place,
    })?;
    Ok(())
}

/// Appends what the label of a point lacks of its needs, in their order.
fn push_point(
    flow: &OnwardFlow,
    at: usize,
    point: &OnwardPoint,
    state: &State,
    lost: &Lost,
    out: &mut Vec<MissingAt>,
) -> Result<(), AllocError>
    requires differ { EdgesDiffer (onward_flow_view flow.now) }
    requires there { LeadThere (onward_flow_view flow.now) }
    requires within { at < length flow.now.points.items }
    requires exact { (f : FactOf) → (has_fact state.now f ≡ true) ↔ Holds (onward_flow_view flow.now) f at }
    requires noted { (f : FactOf) → IsIn f (onward_point_view point.now).needs → has_fact state.now f ≡ false → IsNoted lost.now.numbers f }
    requires searched { AreSearchedBy (onward_flow_view flow.now) lost.now.numbers lost.now.by.items lost.now.searches.items }
    ensures { OnOk result (IsAdded (onward_flow_view flow.now) lost.now (demands_at (at, onward_point_view point.now)) out.old out.new) }
{
    for fact in &point.needs {
        push_lacking(flow, at, point.stmt, fact, state, lost, out)?;
    }
    Ok(())
}

/// What labels lack of the needs of their points, by statement and then in the order of needs.
pub fn lacking(alloc: Global, flow: &OnwardFlow, labels: &Labels) -> Result<Missing, AllocError>
    requires many { length labels.now.at.items ≡ length flow.now.points.items }
    requires differ { EdgesDiffer (onward_flow_view flow.now) }
    requires there { LeadThere (onward_flow_view flow.now) }
    requires reached { (i : ℕ) → i < length flow.now.points.items → IsReached (onward_flow_view flow.now) (node i) }
    requires exact { AreExact (onward_flow_view flow.now) (labels_view labels.now) }
    ensures { IfOk result (AreMissing (onward_flow_view flow.now) (demands (onward_flow_view flow.now))) }
{
    let numbers = lost_in(alloc, flow, labels)?;
    let lost = search_lost(alloc, flow, numbers)?;
    let mut facts = Vec::new(alloc);
    for (i, point) in flow.points.as_slice().iter().enumerate() {
        push_point(flow, i, point, &labels.at[i], &lost, &mut facts)?;
    }
    let Lost {
        numbers,
        by: _,
        searches,
    } = lost;
    Ok(Missing {
        lost: numbers.into_facts(),
        searches,
        facts,
    })
}
