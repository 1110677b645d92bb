//! Types that reach themselves, and what types meet.
ghost use Rattle.std.specs.Prelude.{◌≡◌, ◌<◌, ◌≤◌, ◌^◌, ◌⊎◌, ◌↔◌, ℕ, false, IfOk, IsTrue, filter, nat_eq, map, length};
ghost use Rattle.std.specs.List.{list_all};
ghost use Rattle.herm_model.specs.Types.{named_types};
ghost use Rattle.herm_model.specs.WellFormedTables.{Reaches};
ghost use Rattle.herm_meaning.specs.Names.{NamedTable};
ghost use Rattle.herm_meaning.specs.DefinitionFaults.{MeetsNoCycle, MeetsNoUnknown};
ghost use Rattle.herm_types.specs.Table.{says, shapes_view};
ghost use Rattle.herm_types.specs.Chosen.{lists};
ghost use Rattle.herm_graph.specs.Graph.{number_at, comes_behind, AreInside, AreInOrder};
ghost use Rattle.herm_graph.specs.Met.{SayCycles, SayOnCycle, SayAllCycles, MeetsGoal};
ghost use Rattle.herm_graph.specs.Tells.{Tells, Refutes};

use crate::graph::{Rule, number_at, reached, says};
use crate::hints::{groups_of, reversed};
use crate::unknown::unknown_in;
use herm_types::Shape;
use std::alloc::{AllocError, Global};

/// The types of a list that are of the same group as a type.
fn in_group(
    alloc: Global,
    firsts: &[u32],
    types: &[u32],
    first: u32,
) -> Result<Vec<u32>, AllocError>
    ensures { IfOk result (λ v. v.items ≡ filter (λ t. nat_eq (number_at firsts.now t) first) types.now) }
{
    let mut same = Vec::new(alloc);
    for t in types {
        if number_at(firsts, *t) == first {
            same.push(*t)?;
        }
    }
    Ok(same)
}

/// The next types that are of the same group.
fn within_groups(
    alloc: Global,
    firsts: &[u32],
    next: &[Vec<u32>],
) -> Result<Vec<Vec<u32>>, AllocError>
    requires few { length next.now < 2 ^ 32 }
    ensures inside { IfOk result (λ v. AreInside firsts.now (lists next.now) (lists v.items)) }
    ensures each { IfOk result (λ v. length v.items ≡ length next.now) }
{
    let mut all = Vec::with_capacity(alloc, next.len())?;
    for (t, types) in next.iter().enumerate() {
        let first = number_at(firsts, t as u32);
        let same = in_group(alloc, firsts, types.as_slice(), first)?;
        all.push(same)?;
    }
    Ok(all)
}

/// Which types are the first of their group.
fn first_ones(alloc: Global, firsts: &[u32], count: usize) -> Result<Vec<bool>, AllocError>
    requires few { count < 2 ^ 32 }
    ensures { IfOk result (λ v. (t : ℕ) → IsTrue (says v.items t) → number_at firsts.now t ≡ t) }
{
    let mut tests = Vec::with_capacity(alloc, count)?;
    for t in 0..count {
        tests.push(number_at(firsts, t as u32) == t as u32)?;
    }
    Ok(tests)
}

/// Of two lists of tests, what both say.
fn both(alloc: Global, a: &[bool], b: &[bool], count: usize) -> Result<Vec<bool>, AllocError>
    requires few { count < 2 ^ 32 }
    ensures { IfOk result (λ v. (t : ℕ) → IsTrue (says v.items t) → IsTrue (says a.now t) × IsTrue (says b.now t)) }
{
    let mut tests = Vec::with_capacity(alloc, count)?;
    for t in 0..count {
        tests.push(says(a, t as u32) && says(b, t as u32))?;
    }
    Ok(tests)
}

/// Types that lead to the first of their group and are led to by it: they reach themselves.
fn in_rings(
    alloc: Global,
    shapes: &[Shape],
    next: &[Vec<u32>],
    firsts: &[u32],
) -> Result<Vec<bool>, AllocError>
    requires few { length next.now < 2 ^ 32 }
    requires named { lists next.now ≡ map named_types (shapes_view shapes.now) }
    ensures { IfOk result (λ v. SayOnCycle (shapes_view shapes.now) v.items) }
{
    let inside = within_groups(alloc, firsts, next)?;
    let before = reversed(alloc, inside.as_slice())?;
    let goal = first_ones(alloc, firsts, next.len())?;
    let leads = reached(alloc, Rule::AnyOf, goal.as_slice(), inside.as_slice())?;
    let led = reached(alloc, Rule::AnyOf, goal.as_slice(), before.as_slice())?;
    let tests = both(alloc, leads.as_slice(), led.as_slice(), next.len())?;
    Ok(tests)
}

/// Whether a type comes behind a place, or at it, where it is there.
fn comes_behind(places: &[u32], t: u32, count: u32, place: u32, or_at: bool) -> bool
    ensures { result ≡ comes_behind places.now count place or_at t }
{
    let other = number_at(places, t);
    t >= count || place < other || (or_at && place == other)
}

fn come_behind(places: &[u32], types: &[u32], count: u32, place: u32, or_at: bool) -> bool
    ensures { result ≡ list_all (comes_behind places.now count place or_at) types.now }
{
    types
        .iter()
        .all(|t| comes_behind(places, *t, count, place, or_at))
}

/// Whether each type leads only to types behind it, or at its place where it is in a ring.
fn are_in_order(next: &[Vec<u32>], places: &[u32], rings: &[bool]) -> bool
    requires few { length next.now < 2 ^ 32 }
    ensures { IsTrue result → AreInOrder (lists next.now) places.now rings.now }
{
    for (t, types) in next.iter().enumerate() {
        let place = number_at(places, t as u32);
        let in_ring = says(rings, t as u32);
        if !come_behind(places, types.as_slice(), next.len() as u32, place, in_ring) {
            return false;
        }
    }
    true
}

/// A test that is true of one type alone.
fn only(alloc: Global, count: usize, t: u32) -> Result<Vec<bool>, AllocError>
    requires { t < count }
    ensures said { IfOk result (λ v. IsTrue (says v.items t)) }
    ensures alone { IfOk result (λ v. (u : ℕ) → IsTrue (says v.items u) → u ≡ t) }
{
    let mut goal = vec![in alloc; false; count]?;
    goal[t as usize] = true;
    Ok(goal)
}

/// Whether a type reaches itself.
fn reaches_itself(
    alloc: Global,
    shapes: &[Shape],
    next: &[Vec<u32>],
    t: u32,
) -> Result<bool, AllocError>
    requires few { length next.now < 2 ^ 32 }
    requires named { lists next.now ≡ map named_types (shapes_view shapes.now) }
    requires there { t < length next.now }
    ensures { IfOk result (λ b. Tells b (Reaches (shapes_view shapes.now) t t)) }
{
    let goal = only(alloc, next.len(), t)?;
    let found = reached(alloc, Rule::AnyOf, goal.as_slice(), next)?;
    Ok(says(found.as_slice(), t))
}

/// Whether a type reaches itself, where these are in rings, and all others are in order or are not.
fn is_on_cycle(
    alloc: Global,
    shapes: &[Shape],
    next: &[Vec<u32>],
    rings: &[bool],
    others_are_not: bool,
    t: u32,
) -> Result<bool, AllocError>
    requires few { length next.now < 2 ^ 32 }
    requires named { lists next.now ≡ map named_types (shapes_view shapes.now) }
    requires rings { SayOnCycle (shapes_view shapes.now) rings.now }
    requires others { IsTrue others_are_not → SayAllCycles (shapes_view shapes.now) rings.now }
    requires there { t < length next.now }
    ensures { IfOk result (λ b. Tells b (Reaches (shapes_view shapes.now) t t)) }
{
    if says(rings, t) {
        return Ok(true);
    }
    if others_are_not {
        return Ok(false);
    }
    let on = reaches_itself(alloc, shapes, next, t)?;
    Ok(on)
}

/// Whether all types that reach themselves are in these rings, as far as an order of places shows.
fn are_all(shapes: &[Shape], next: &[Vec<u32>], places: &[u32], rings: &[bool]) -> bool
    requires few { length next.now < 2 ^ 32 }
    requires named { lists next.now ≡ map named_types (shapes_view shapes.now) }
    ensures { IsTrue result → SayAllCycles (shapes_view shapes.now) rings.now }
{
    are_in_order(next, places, rings)
}

/// Which types reach themselves.
pub fn cycles_of(
    alloc: Global,
    shapes: &[Shape],
    next: &[Vec<u32>],
) -> Result<Vec<bool>, AllocError>
    requires few { length next.now < 2 ^ 32 }
    requires named { lists next.now ≡ map named_types (shapes_view shapes.now) }
    ensures said { IfOk result (λ v. SayCycles (shapes_view shapes.now) v.items) }
    ensures each { IfOk result (λ v. length v.items ≡ length next.now) }
{
    let groups = groups_of(alloc, next)?;
    let rings = in_rings(alloc, shapes, next, groups.firsts.as_slice())?;
    let all = are_all(shapes, next, groups.places.as_slice(), rings.as_slice());
    let mut cycles = Vec::with_capacity(alloc, next.len())?;
    for t in 0..next.len() {
        let on = is_on_cycle(alloc, shapes, next, rings.as_slice(), all, t as u32)?;
        cycles.push(on)?;
    }
    Ok(cycles)
}

/// Which types meet a goal: are one, or reach one.
pub fn meeting(
    alloc: Global,
    shapes: &[Shape],
    next: &[Vec<u32>],
    goal: &[bool],
) -> Result<Vec<bool>, AllocError>
    requires few { length next.now < 2 ^ 32 }
    requires named { lists next.now ≡ map named_types (shapes_view shapes.now) }
    requires each { length goal.now ≡ length next.now }
    ensures { IfOk result (λ v. (t : ℕ) → IsTrue (says v.items t) ↔ MeetsGoal (shapes_view shapes.now) goal.now t) }
{
    let found = reached(alloc, Rule::AnyOf, goal, next)?;
    let reaching = found.as_slice();
    let mut meets = Vec::with_capacity(alloc, next.len())?;
    for t in 0..next.len() {
        meets.push(says(goal, t as u32) || says(reaching, t as u32))?;
    }
    Ok(meets)
}

/// Which types meet one that reaches itself.
pub fn meeting_cycles(
    alloc: Global,
    shapes: &[Shape],
    next: &[Vec<u32>],
    cycles: &[bool],
) -> Result<Vec<bool>, AllocError>
    requires few { length next.now < 2 ^ 32 }
    requires named { lists next.now ≡ map named_types (shapes_view shapes.now) }
    requires cycles { SayCycles (shapes_view shapes.now) cycles.now }
    requires each { length cycles.now ≡ length next.now }
    ensures { IfOk result (λ v. (table : NamedTable) → table.shapes ≡ shapes_view shapes.now → (t : ℕ) → Refutes (says v.items t) (MeetsNoCycle table t)) }
{
    let meets = meeting(alloc, shapes, next, cycles)?;
    Ok(meets)
}

/// Which types meet an unknown name.
pub fn meeting_unknown(
    alloc: Global,
    shapes: &[Shape],
    next: &[Vec<u32>],
    exceptions: u32,
) -> Result<Vec<bool>, AllocError>
    requires few { length next.now < 2 ^ 32 }
    requires named { lists next.now ≡ map named_types (shapes_view shapes.now) }
    ensures { IfOk result (λ v. (table : NamedTable) → table.shapes ≡ shapes_view shapes.now → length table.exceptions ≡ exceptions → (t : ℕ) → Refutes (says v.items t) (MeetsNoUnknown table t)) }
{
    let unknown = unknown_in(alloc, shapes, next, exceptions)?;
    let meets = meeting(alloc, shapes, next, unknown.as_slice())?;
    Ok(meets)
}
