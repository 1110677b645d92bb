//! Where the edges of several outcomes begin, found in one pass over the edges.
ghost use Rattle.std.specs.Prelude.{◌≡◌, ◌<◌, ◌≤◌, ℕ, None, map, length, get_or, IfOk, MatchResult, OnOk};
ghost use Rattle.herm_model.specs.Lists.{map_or, range};
ghost use Rattle.herm_model.specs.Outcomes.{component, same_outcome};
ghost use Rattle.herm_typed.specs.View.{outcome_view};
ghost use Rattle.herm_fronts.specs.Blocks.{exits_view, landings_view, landing_to};
ghost use Rattle.herm_fronts.specs.Exits.{number_of, LeadFrom, LeadTooFar, IsAlong, noted};

use crate::departures::{Exits, edge_length, exit_at};
use crate::numbers::sum;
use herm_base::ExcNo;
use herm_typed::Outcome;
use std::alloc::{AllocError, Global};

/// The edges that are left behind those of outcomes with numbers below this one.
#[derive(Clone, Copy)]
pub struct Walk<'a> {
    pub left: Exits<'a>,
    pub number: u32,
}

/// The number of an outcome among those of its kind.
fn number_of(o: Outcome) -> u32
    ensures { result ≡ number_of (outcome_view o) }
{
    match o {
        Outcome::Ok => 0,
        Outcome::True => 0,
        Outcome::False => 0,
        Outcome::Turn => 0,
        Outcome::Done => 0,
        Outcome::Component(c) => c,
        Outcome::Arm(n) => n,
        Outcome::Raised(e) => e.0,
    }
}

/// Edges without the first ones, as long as their numbers are below this one; refused only where those that are left begin at an index that
/// does not fit.
#[tactic(auto, using(crate::proofs::Edges::edge_at_least))]
fn from_number<'a>(exits: &Exits<'a>, number: u32) -> Result<Exits<'a>, AllocError>
    ensures { MatchResult result (λ e. LeadFrom exits.now e number) (λ e. LeadTooFar exits.now number) }
{
    let mut first = exits.first;
    let mut edges = exits.edges;
    'edges: while let [d, more @ ..] = edges {
        if number <= number_of(d.outcome) {
            return Ok(Exits { first, edges });
        }
        let length = edge_length(d)?;
        first = sum(first, length)?;
        edges = more;
    }
    Ok(Exits { first, edges })
}

/// A walk along all edges.
pub fn walk_along<'a>(exits: &Exits<'a>) -> Walk<'a>
    ensures { IsAlong exits.now result }
{
    Walk {
        left: *exits,
        number: 0,
    }
}

/// The walk that goes on to the edges of an outcome, or begins again where it is past them.
fn walk_to<'a>(exits: &Exits<'a>, walk: &Walk<'a>, o: Outcome) -> Result<Walk<'a>, AllocError>
    requires along { IsAlong exits.now walk.now }
    ensures along { MatchResult result (λ w. IsAlong exits.now w) (λ e. LeadTooFar exits.now (number_of (outcome_view o))) }
    ensures number { IfOk result (λ w. w.number ≡ number_of (outcome_view o)) }
{
    let number = number_of(o);
    if number < walk.number {
        let left = from_number(exits, number)?;
        return Ok(Walk { left, number });
    }
    let left = from_number(&walk.left, number)?;
    Ok(Walk { left, number })
}

/// The index at which the edge of an outcome begins; refused only where it does not fit. Where outcomes come by rising numbers, a walk passes
/// no edge twice.
pub fn next_exit<'a>(exits: &Exits<'a>, walk: &mut Walk<'a>, o: Outcome) -> Result<u32, AllocError>
    requires along { IsAlong exits.now walk.old }
    ensures index { MatchResult result (λ n. n ≡ exits_view exits.now (outcome_view o)) (λ e. 4294967296 ≤ exits_view exits.now (outcome_view o)) }
    ensures along { OnOk result (IsAlong exits.now walk.new) }
{
    *walk = walk_to(exits, walk, o)?;
    let at = exit_at(&walk.left, o)?;
    Ok(at)
}

/// Where the edges of these exceptions begin.
pub fn landings_at(
    alloc: Global,
    exits: &Exits<'_>,
    exceptions: &[ExcNo],
) -> Result<Vec<(ExcNo, u32)>, AllocError>
    ensures { IfOk result (λ v. landings_view v.items ≡ map (landing_to (exits_view exits.now)) (map (λ n. n.0) exceptions.now)) }
{
    let mut found = Vec::with_capacity(alloc, exceptions.len())?;
    let mut walk = walk_along(exits);
    'exceptions: for e in exceptions {
        let index = next_exit(exits, &mut walk, Outcome::Raised(*e))?;
        found.push((*e, index))?;
    }
    Ok(found)
}

/// Notes the first edge of each component, where one more edge begins at an index.
fn note(firsts: &mut Vec<Option<u32>>, o: Outcome, at: u32)
    ensures many { length firsts.new.items ≡ length firsts.old.items }
    ensures noted { (c : ℕ) → c < length firsts.old.items → get_or firsts.new.items c None ≡ noted at (same_outcome (outcome_view o) (component c)) (get_or firsts.old.items c None) }
{
    let Outcome::Component(c) = o else {
        return;
    };
    let c = c as usize;
    if c < firsts.len() && firsts[c].is_none() {
        firsts[c] = Some(at);
    }
}

/// Where the first edge of each of so many components begins, and the index behind all edges.
fn firsts_of(
    alloc: Global,
    exits: &Exits<'_>,
    count: usize,
) -> Result<(Vec<Option<u32>>, u32), AllocError>
    ensures many { IfOk result (λ r. length (r.0).items ≡ count) }
    ensures firsts { IfOk result (λ r. (c : ℕ) → c < count → map_or r.1 (λ n. n) (get_or (r.0).items c None) ≡ exits_view exits.now (component c)) }
{
    let mut firsts = vec![in alloc; None; count]?;
    let mut at = exits.first;
    'edges: for d in exits.edges {
        note(&mut firsts, d.outcome, at);
        let length = edge_length(d)?;
        at = sum(at, length)?;
    }
    Ok((firsts, at))
}

/// The first edge of a component, where it was noted, or the index behind all edges.
fn place_at(firsts: &Vec<Option<u32>>, end: u32, c: usize) -> u32
    ensures { result ≡ map_or end (λ n. n) (get_or firsts.now.items c None) }
{
    match firsts.get(c) {
        Some(Some(at)) => *at,
        Some(None) => end,
        None => end,
    }
}

/// The index to which each of so many components leads, whose edges come in any order.
pub fn component_exits(
    alloc: Global,
    exits: &Exits<'_>,
    count: usize,
) -> Result<Vec<u32>, AllocError>
    ensures { IfOk result (λ v. v.items ≡ map (λ c. exits_view exits.now (component c)) (range 0 count)) }
{
    let (firsts, end) = firsts_of(alloc, exits, count)?;
    let mut found = Vec::with_capacity(alloc, count)?;
    'components: for c in 0..count {
        let at = place_at(&firsts, end, c);
        found.push(at)?;
    }
    Ok(found)
}
