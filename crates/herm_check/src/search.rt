//! The search for shortest control paths on which a fact is not held.
ghost use Rattle.std.specs.Prelude.{◌≡◌, ◌+◌, ◌*◌, ◌^◌, ◌<◌, ◌≤◌, ℕ, List, Some, None, true, cond, nat_lt, map, reverse, length, slice_get, take, drop, option_and_then, IfOk, OnOk, IfSome, IfNone};
ghost use Rattle.herm_model.specs.Paths.{Fact as FactOf};
ghost use Rattle.herm_model.specs.Targets.{node};
ghost use Rattle.herm_model.specs.ControlPaths.{Holds};
ghost use Rattle.herm_types.specs.View.{fact_view};
ghost use Rattle.herm_flow.specs.declared.onward.OnwardPoint.{OnwardPoint};
ghost use Rattle.herm_flow.specs.OnwardView.{onward_flow_view};
ghost use Rattle.herm_check.specs.View.{edge_in, hop_view};
ghost use Rattle.herm_check.specs.Labelled.{LeadThere};
ghost use Rattle.herm_facts.specs.FactSets.{has};
ghost use Rattle.herm_facts.specs.FactNumbers.{number_of};
ghost use Rattle.herm_check.specs.Lists.{AreListsIn};
ghost use Rattle.herm_check.specs.Effects.{AreEffectsIn};
ghost use Rattle.herm_check.specs.Trails.{trail};
ghost use Rattle.herm_check.specs.declared.search.Visit.{Visit as VisitOf};
ghost use Rattle.herm_check.specs.Searched.{slot_of, is_held_beyond, IsUnvisited, IsVisited, IsFollowedFrom, AreVisits, IsSearching, IsKept, IsNearest, IsSearched};
ghost use Rattle.herm_check.specs.Remaining.{IsSeenBeyond, HasAt, IsRestAt, AreRests, ArePristine};

use crate::effects::{Effect, effects_in, held_first};
use crate::lists::ListsOf;
use herm_base::StmtNo;
use herm_facts::{FactNumbers, FactSet};
use herm_flow::{OnwardEdge, OnwardFlow};
use herm_typed::Outcome;
use herm_types::Fact;
use std::alloc::{AllocError, Global};

/// How many facts share a search.
pub const SHARED: usize = 64;

/// The edges of a point that has fewer are followed sooner than looked at.
const FEW: usize = 8;

/// One hop of a control path: a statement's number, and one of its outcomes.
#[derive(Clone, Copy, Debug, PartialEq, Eq)]
pub struct Hop {
    pub stmt: StmtNo,
    pub outcome: Outcome,
}

/// How a visit was reached: from another visit, by a hop.
#[derive(Clone, Copy)]
pub struct Link {
    pub from: usize,
    pub hop: Hop,
}

/// A point that paths of so many hops and no shorter ones reach with these facts all held, or none of them.
#[derive(Clone, Copy)]
pub struct Visit {
    pub point: usize,
    pub held: bool,
    pub facts: FactSet,
    pub depth: usize,
    pub last: Option<Link>,
}

/// The visits so far in the order of their depth; and of each point with facts held or not, which facts, and the places of its visits.
#[derive(Drop)]
pub struct Search {
    pub visits: Vec<Visit>,
    pub seen: Vec<FactSet>,
    pub places: Vec<Vec<usize>>,
}

/// Of a point with facts held or not: for these facts, with which it was visited, its edges but those with these numbers lead to
/// nothing new.
#[derive(Drop)]
struct Rest {
    facts: FactSet,
    edges: Vec<usize>,
}

/// The place of a point, with facts held or not, among all of these.
#[inline(always)]
fn slot(point: usize, held: bool) -> usize
    requires { point < 2 ^ 62 }
    ensures { result ≡ slot_of point held }
{
    if held {
        return 2 * point + 1;
    }
    2 * point
}

/// Adds a visit of those facts with which its point was not visited alike, if there are any.
#[inline(always)]
fn add(search: &mut Search, visit: Visit) -> Result<(), AllocError>
    requires within { 2 * visit.point + 1 < length search.old.seen.items }
    requires many { length search.old.places.items ≡ length search.old.seen.items }
    ensures { OnOk result (IsVisited visit search.old.visits.items search.old.seen.items search.old.places.items search.new.visits.items search.new.seen.items search.new.places.items) }
{
    let slot = slot(visit.point, visit.held);
    let seen = search.seen[slot];
    let facts = visit.facts.without(seen);
    if facts.is_empty() {
        return Ok(());
    }
    search.places[slot].push(search.visits.len())?;
    search.seen[slot] = seen.either(facts);
    search.visits.push(Visit {
        point: visit.point,
        held: visit.held,
        facts,
        depth: visit.depth,
        last: visit.last,
    })?;
    Ok(())
}

/// Of the facts of a visit those that are held behind an edge.
#[inline(always)]
fn held_beyond(effect: Effect, visit: &Visit) -> FactSet
    ensures { (j : ℕ) → has result j ≡ is_held_beyond effect visit.now j }
{
    let made = visit.facts.both(effect.made);
    if !visit.held {
        return made;
    }
    made.either(visit.facts.without(effect.killed))
}

/// Follows an edge of a statement from a visit, which has this place.
#[inline(always)]
fn follow(
    effect: Effect,
    stmt: StmtNo,
    edge: &OnwardEdge,
    from: usize,
    visit: &Visit,
    search: &mut Search,
) -> Result<(), AllocError>
    requires within { 2 * edge.now.to + 1 < length search.old.seen.items }
    requires many { length search.old.places.items ≡ length search.old.seen.items }
    requires few { visit.now.depth < 2 ^ 63 }
    ensures { OnOk result ((p : OnwardPoint) → IsFollowedFrom stmt.0 (edge_in p edge.now) effect from visit.now search.old.visits.items search.old.seen.items search.old.places.items search.new.visits.items search.new.seen.items search.new.places.items) }
{
    let hop = Hop {
        stmt,
        outcome: edge.outcome,
    };
    let held = held_beyond(effect, visit);
    let lost = visit.facts.without(held);
    let next = Visit {
        point: edge.to as usize,
        held: true,
        facts: held,
        depth: visit.depth + 1,
        last: Some(Link { from, hop }),
    };
    add(search, next)?;
    let next = Visit {
        point: edge.to as usize,
        held: false,
        facts: lost,
        depth: visit.depth + 1,
        last: Some(Link { from, hop }),
    };
    add(search, next)?;
    Ok(())
}

/// Follows each edge from the visit at a place.
fn follow_all(
    flow: &OnwardFlow,
    effects: &[Vec<Effect>],
    _facts: &[Fact],
    k: usize,
    search: &mut Search,
) -> Result<(), AllocError>
    requires there { LeadThere (onward_flow_view flow.now) }
    requires effects { AreEffectsIn (onward_flow_view flow.now) (map fact_view _facts.now) effects.now }
    requires search { IsSearching (onward_flow_view flow.now) (map fact_view _facts.now) search.old k }
    requires within { k < length search.old.visits.items }
    ensures search { OnOk result (IsSearching (onward_flow_view flow.now) (map fact_view _facts.now) search.new (k + 1)) }
    ensures kept { OnOk result (IsKept search.old.visits.items search.new.visits.items) }
{
    let visit = search.visits[k];
    let point = &flow.points[visit.point];
    let row = effects[visit.point].as_slice();
    for number in 0..point.edges.len() {
        let edge = &point.edges[number];
        follow(row[number], point.stmt, edge, k, &visit, search)?;
    }
    Ok(())
}

/// Follows the edges with these numbers from the visit at a place, where the others lead to nothing new for its facts.
fn follow_listed(
    flow: &OnwardFlow,
    effects: &[Vec<Effect>],
    _facts: &[Fact],
    numbers: &[usize],
    k: usize,
    search: &mut Search,
) -> Result<(), AllocError>
    requires there { LeadThere (onward_flow_view flow.now) }
    requires effects { AreEffectsIn (onward_flow_view flow.now) (map fact_view _facts.now) effects.now }
    requires search { IsSearching (onward_flow_view flow.now) (map fact_view _facts.now) search.old k }
    requires within { k < length search.old.visits.items }
    requires listed { HasAt search.old.visits.items k (λ v. IsRestAt (onward_flow_view flow.now) (map fact_view _facts.now) search.old.visits.items v.point v.held v.facts numbers.now) }
    ensures search { OnOk result (IsSearching (onward_flow_view flow.now) (map fact_view _facts.now) search.new (k + 1)) }
    ensures kept { OnOk result (IsKept search.old.visits.items search.new.visits.items) }
{
    let visit = search.visits[k];
    let point = &flow.points[visit.point];
    let row = effects[visit.point].as_slice();
    for i in 0..numbers.len() {
        let number = numbers[i];
        let edge = &point.edges[number];
        follow(row[number], point.stmt, edge, k, &visit, search)?;
    }
    Ok(())
}

/// Whether the point behind an edge was seen with each fact of a visit, held or not as it is behind the edge.
#[inline(always)]
fn is_closed(effect: Effect, edge: &OnwardEdge, visit: &Visit, seen: &[FactSet]) -> bool
    requires within { 2 * edge.now.to + 1 < length seen.now }
    ensures { result ≡ true → IsSeenBeyond seen.now effect visit.now edge.now.to }
{
    let held = held_beyond(effect, visit);
    let others = visit.facts.without(held);
    let to = edge.to as usize;
    if !held.without(seen[slot(to, true)]).is_empty() {
        return false;
    }
    others.without(seen[slot(to, false)]).is_empty()
}

/// The numbers of the edges that may lead to something new, from the point of the visit at a place and for all facts with which
/// the point was seen as in this visit.
fn rest_of(
    alloc: Global,
    flow: &OnwardFlow,
    effects: &[Vec<Effect>],
    _facts: &[Fact],
    k: usize,
    search: &Search,
) -> Result<Rest, AllocError>
    requires there { LeadThere (onward_flow_view flow.now) }
    requires effects { AreEffectsIn (onward_flow_view flow.now) (map fact_view _facts.now) effects.now }
    requires search { IsSearching (onward_flow_view flow.now) (map fact_view _facts.now) search.now k }
    requires within { k < length search.now.visits.items }
    ensures facts { IfOk result (λ rest. HasAt search.now.visits.items k (λ v. (j : ℕ) (f : FactOf) → slice_get (map fact_view _facts.now) j ≡ Some f → has v.facts j ≡ true → has rest.facts j ≡ true)) }
    ensures edges { IfOk result (λ rest. HasAt search.now.visits.items k (λ v. IsRestAt (onward_flow_view flow.now) (map fact_view _facts.now) search.now.visits.items v.point v.held rest.facts rest.edges.items)) }
{
    let visit = search.visits[k];
    let point = &flow.points[visit.point];
    let row = effects[visit.point].as_slice();
    let whole = Visit {
        point: visit.point,
        held: visit.held,
        facts: search.seen[slot(visit.point, visit.held)],
        depth: visit.depth,
        last: visit.last,
    };
    let mut edges = Vec::new(alloc);
    for number in 0..point.edges.len() {
        if !is_closed(
            row[number],
            &point.edges[number],
            &whole,
            search.seen.as_slice(),
        ) {
            edges.push(number)?;
        }
    }
    Ok(Rest {
        facts: whole.facts,
        edges,
    })
}

/// Follows from the visit at a place each edge that may lead to something new.
fn leave(
    alloc: Global,
    flow: &OnwardFlow,
    effects: &[Vec<Effect>],
    _facts: &[Fact],
    k: usize,
    search: &mut Search,
    rests: &mut Vec<Rest>,
) -> Result<(), AllocError>
    requires there { LeadThere (onward_flow_view flow.now) }
    requires effects { AreEffectsIn (onward_flow_view flow.now) (map fact_view _facts.now) effects.now }
    requires search { IsSearching (onward_flow_view flow.now) (map fact_view _facts.now) search.old k }
    requires within { k < length search.old.visits.items }
    requires rests { AreRests (onward_flow_view flow.now) (map fact_view _facts.now) search.old.visits.items rests.old.items }
    ensures search { OnOk result (IsSearching (onward_flow_view flow.now) (map fact_view _facts.now) search.new (k + 1)) }
    ensures kept { OnOk result (IsKept search.old.visits.items search.new.visits.items) }
    ensures rests { OnOk result (AreRests (onward_flow_view flow.now) (map fact_view _facts.now) search.new.visits.items rests.new.items) }
{
    let visit = search.visits[k];
    let slot = slot(visit.point, visit.held);
    let count = flow.points[visit.point].edges.len();
    if count < FEW || rests[slot].facts.is_empty() {
        follow_all(flow, effects, _facts, k, search)?;
        rests[slot].facts = visit.facts;
        return Ok(());
    }
    if !visit.facts.without(rests[slot].facts).is_empty() {
        rests[slot] = rest_of(alloc, flow, effects, _facts, k, search)?;
    }
    follow_listed(
        flow,
        effects,
        _facts,
        rests[slot].edges.as_slice(),
        k,
        search,
    )?;
    Ok(())
}

/// So many points, with facts held or not, from which no edge was followed.
fn pristine(alloc: Global, count: usize) -> Result<Vec<Rest>, AllocError>
    ensures { IfOk result (λ rests. ArePristine count rests.items) }
{
    let mut rests = Vec::new(alloc);
    for _ in 0..count {
        rests.push(Rest {
            facts: FactSet::none(),
            edges: Vec::new(alloc),
        })?;
    }
    Ok(rests)
}

/// So many points, with facts held or not, that were not visited.
fn none_visited(alloc: Global, count: usize) -> Result<Search, AllocError>
    ensures { IfOk result (IsUnvisited count) }
{
    let mut places = Vec::new(alloc);
    for _ in 0..count {
        places.push(Vec::new(alloc))?;
    }
    Ok(Search {
        visits: Vec::new(alloc),
        seen: vec![in alloc; FactSet::none(); count]?,
        places,
    })
}

/// The search as it begins: the first point is visited, with each fact held or not.
fn begin(alloc: Global, flow: &OnwardFlow, facts: &[Fact]) -> Result<Search, AllocError>
    requires some { 0 < length flow.now.points.items }
    requires few { length facts.now ≤ 64 }
    ensures { IfOk result (λ search. IsSearching (onward_flow_view flow.now) (map fact_view facts.now) search 0) }
{
    let mut search = none_visited(alloc, 2 * flow.points.len())?;
    let held = held_first(facts);
    let lost = FactSet::first(facts.len()).without(held);
    let first = Visit {
        point: 0,
        held: true,
        facts: held,
        depth: 0,
        last: None,
    };
    add(&mut search, first)?;
    let first = Visit {
        point: 0,
        held: false,
        facts: lost,
        depth: 0,
        last: None,
    };
    add(&mut search, first)?;
    Ok(search)
}

/// Follows each edge from each visit, those that are added by it too.
fn complete(
    alloc: Global,
    flow: &OnwardFlow,
    effects: &[Vec<Effect>],
    facts: &[Fact],
    search: &mut Search,
) -> Result<(), AllocError>
    requires there { LeadThere (onward_flow_view flow.now) }
    requires effects { AreEffectsIn (onward_flow_view flow.now) (map fact_view facts.now) effects.now }
    requires search { IsSearching (onward_flow_view flow.now) (map fact_view facts.now) search.old 0 }
    ensures { OnOk result (IsSearching (onward_flow_view flow.now) (map fact_view facts.now) search.new (length search.new.visits.items)) }
{
    let mut rests = pristine(alloc, search.seen.len())?;
    let mut next = 0;
    while next < search.visits.len() {
        leave(alloc, flow, effects, facts, next, search, &mut rests)?;
        next += 1;
    }
    Ok(())
}

/// The facts that share the search with this number.
fn shared_in(lost: &[Fact], number: usize) -> &[Fact]
    requires { 64 * number < length lost.now }
    ensures few { length result.now ≤ 64 }
    ensures facts { map fact_view result.now ≡ take 64 (drop (64 * number) (map fact_view lost.now)) }
{
    let first = SHARED * number;
    let count = SHARED.min(lost.len() - first);
    &lost[first..first + count]
}

/// Searches for all shortest control paths with each of the lost facts held or not that share the search with this number.
pub fn search_for(
    alloc: Global,
    flow: &OnwardFlow,
    lists: &[ListsOf],
    lost: &FactNumbers,
    number: usize,
) -> Result<Search, AllocError>
    requires there { LeadThere (onward_flow_view flow.now) }
    requires lists { AreListsIn lost.now flow.now lists.now }
    requires some { 0 < length flow.now.points.items }
    requires first { (f : FactOf) × (number_of lost.now f ≡ Some (64 * number)) }
    ensures { IfOk result (λ search. (j : ℕ) (f : FactOf) → j < 64 → number_of lost.now f ≡ Some (64 * number + j) → IsSearched (onward_flow_view flow.now) f j search) }
{
    let facts = shared_in(lost.facts(), number);
    let effects = effects_in(alloc, flow, lists, number)?;
    let mut search = begin(alloc, flow, facts)?;
    complete(alloc, flow, effects.as_slice(), facts, &mut search)?;
    Ok(search)
}

/// The place of the visit of a point with a fact not held, by the fact's number: none where it is held on each path to it.
pub fn lost_place(_flow: &OnwardFlow, search: &Search, at: usize, number: usize) -> Option<usize>
    requires visits { AreVisits (onward_flow_view _flow.now) search.now }
    requires within { at < length _flow.now.points.items }
    requires few { number < 64 }
    ensures some { IfSome result (λ place. (f : FactOf) → IsSearched (onward_flow_view _flow.now) f number search.now → IsNearest (onward_flow_view _flow.now) f number at search.now.visits.items place) }
    ensures none { IfNone result ((f : FactOf) → IsSearched (onward_flow_view _flow.now) f number search.now → Holds (onward_flow_view _flow.now) f at) }
{
    for place in &search.places[slot(at, false)] {
        if search.visits[*place].facts.holds(number) {
            return Some(*place);
        }
    }
    None
}

/// The link by which the visit at a place was reached.
fn link_at(visits: &[Visit], place: usize) -> Option<Link>
    ensures { result ≡ option_and_then (λ (v : VisitOf). v.last) (slice_get visits.now place) }
{
    match visits.get(place) {
        Some(visit) => visit.last,
        None => None,
    }
}

/// The link of the visit at a place, where that is before another place.
fn link_before(visits: &[Visit], place: usize, from: usize) -> Option<Link>
    ensures { result ≡ cond (nat_lt from place) (option_and_then (λ (v : VisitOf). v.last) (slice_get visits.now from)) None }
{
    if from < place {
        return link_at(visits, from);
    }
    None
}

/// The hops from the last one to the first.
fn turned(mut hops: Vec<Hop>) -> Vec<Hop>
    ensures { result.items ≡ reverse hops.items }
{
    hops.reverse();
    hops
}

/// The hops that lead to the visit at a place.
pub fn trail(alloc: Global, visits: &[Visit], place: usize) -> Result<Vec<Hop>, AllocError>
    ensures { IfOk result (λ hops. map hop_view hops.items ≡ trail visits.now place) }
{
    let mut hops = Vec::new(alloc);
    let mut at = place;
    let mut last = link_at(visits, place);
    while let Some(link) = last {
        hops.push(link.hop)?;
        last = link_before(visits, at, link.from);
        at = link.from;
    }
    Ok(turned(hops))
}
