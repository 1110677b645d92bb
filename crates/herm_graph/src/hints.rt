//! Orders in which types are looked at, and guesses at which types lead to one another. No proof rests on them: what
//! is found does not depend on the order, only the time does.
ghost use Rattle.std.specs.Prelude.{◌≡◌, ◌<◌, ◌^◌, ◌⊎◌, ℕ, IfOk, OnOk, length};
ghost use Rattle.herm_model.specs.Lists.{IsIn};
ghost use Rattle.herm_types.specs.Chosen.{lists};
ghost use Rattle.herm_graph.specs.Graph.{IsNext, AreReversed};

use crate::graph::says;
use std::alloc::{AllocError, Global};

/// A guess at the groups of types that reach one another: of each type the first of its group, and the group's place
/// in an order in which groups lead only to groups behind them.
#[derive(Drop)]
pub struct Groups {
    pub firsts: Vec<u32>,
    pub places: Vec<u32>,
}

/// One list for each type, without types.
fn empty_lists(alloc: Global, count: usize) -> Result<Vec<Vec<u32>>, AllocError>
    ensures none { IfOk result (λ v. (t u : ℕ) → IsNext (lists v.items) t u → ⊥) }
    ensures each { IfOk result (λ v. length v.items ≡ count) }
{
    let mut all = Vec::with_capacity(alloc, count)?;
    for _ in 0..count {
        all.push(Vec::new(alloc))?;
    }
    Ok(all)
}

/// Puts a type into the list of another, where there is one.
fn put(before: &mut [Vec<u32>], v: u32, t: u32) -> Result<(), AllocError>
    ensures { OnOk result ((u w : ℕ) → IsNext (lists before.new) u w → IsNext (lists before.old) u w ⊎ ((u ≡ v) × (w ≡ t))) }
{
    let place = v as usize;
    if place < before.len() {
        before[place].push(t)?;
    }
    Ok(())
}

/// Puts a type into the lists of all that it names.
fn put_all(before: &mut [Vec<u32>], types: &[u32], t: u32) -> Result<(), AllocError>
    ensures { OnOk result ((u w : ℕ) → IsNext (lists before.new) u w → IsNext (lists before.old) u w ⊎ ((w ≡ t) × IsIn u types.now)) }
{
    for v in types {
        put(before, *v, t)?;
    }
    Ok(())
}

/// Of each type those that name it.
pub fn reversed(alloc: Global, next: &[Vec<u32>]) -> Result<Vec<Vec<u32>>, AllocError>
    requires few { length next.now < 2 ^ 32 }
    ensures reversed { IfOk result (λ v. AreReversed (lists next.now) (lists v.items)) }
    ensures each { IfOk result (λ v. length v.items ≡ length next.now) }
{
    let mut before = empty_lists(alloc, next.len())?;
    for (t, types) in next.iter().enumerate() {
        put_all(before.as_mut_slice(), types.as_slice(), t as u32)?;
    }
    Ok(before)
}

/// Appends the types that were not seen before.
fn push_unseen(order: &mut Vec<u32>, seen: &mut [bool], types: &[u32]) -> Result<(), AllocError> {
    for t in types {
        let place = *t as usize;
        if place < seen.len() && !seen[place] {
            seen[place] = true;
            order.push(*t)?;
        }
    }
    Ok(())
}

/// The types that lead to a goal, the nearest first.
pub fn order_to_goal(
    alloc: Global,
    goal: &[bool],
    next: &[Vec<u32>],
) -> Result<Vec<u32>, AllocError>
    requires few { length next.now < 2 ^ 32 }
{
    let before = reversed(alloc, next)?;
    let mut seen = vec![in alloc; false; next.len()]?;
    let mut order = Vec::new(alloc);
    for v in 0..next.len() {
        if v < before.len() && says(goal, v as u32) {
            push_unseen(&mut order, seen.as_mut_slice(), before[v].as_slice())?;
        }
    }
    for place in 0..next.len() {
        if place >= order.len() {
            return Ok(order);
        }
        let v = order[place] as usize;
        if v < before.len() {
            push_unseen(&mut order, seen.as_mut_slice(), before[v].as_slice())?;
        }
    }
    Ok(order)
}

/// Appends the types of which no next one is waited for any longer.
fn push_ready(
    order: &mut Vec<u32>,
    waiting: &mut [usize],
    goal: &[bool],
    types: &[u32],
) -> Result<(), AllocError> {
    for t in types {
        let place = *t as usize;
        if place < waiting.len() {
            let left = waiting[place].saturating_sub(1);
            waiting[place] = left;
            if left == 0 && says(goal, *t) {
                order.push(*t)?;
            }
        }
    }
    Ok(())
}

/// How many next types each type has.
fn counts_of(alloc: Global, next: &[Vec<u32>]) -> Result<Vec<usize>, AllocError> {
    let mut counts = Vec::with_capacity(alloc, next.len())?;
    for types in next {
        counts.push(types.len())?;
    }
    Ok(counts)
}

/// The types all of whose next ones come before them.
pub fn order_from_ends(
    alloc: Global,
    goal: &[bool],
    next: &[Vec<u32>],
) -> Result<Vec<u32>, AllocError>
    requires few { length next.now < 2 ^ 32 }
{
    let before = reversed(alloc, next)?;
    let mut waiting = counts_of(alloc, next)?;
    let mut order = Vec::new(alloc);
    for (t, types) in next.iter().enumerate() {
        if types.len() == 0 && says(goal, t as u32) {
            order.push(t as u32)?;
        }
    }
    for place in 0..next.len() {
        if place >= order.len() {
            return Ok(order);
        }
        let v = order[place] as usize;
        if v < before.len() {
            push_ready(
                &mut order,
                waiting.as_mut_slice(),
                goal,
                before[v].as_slice(),
            )?;
        }
    }
    Ok(order)
}

/// Goes on from the type on top of the way: to one that was not seen, or back where there is none.
fn step(
    next: &[Vec<u32>],
    seen: &mut [bool],
    way: &mut Vec<(u32, usize)>,
    order: &mut Vec<u32>,
) -> Result<bool, AllocError> {
    let Some((t, i)) = way.pop() else {
        return Ok(false);
    };
    let place = t as usize;
    if place >= next.len() || i >= next[place].len() {
        order.push(t)?;
        return Ok(true);
    }
    way.push((t, i.saturating_add(1)))?;
    let v = next[place][i];
    let behind = v as usize;
    if behind < seen.len() && !seen[behind] {
        seen[behind] = true;
        way.push((v, 0))?;
    }
    Ok(true)
}

/// All types, each behind those that were first met from it.
fn order_back(alloc: Global, next: &[Vec<u32>]) -> Result<Vec<u32>, AllocError>
    requires few { length next.now < 2 ^ 32 }
{
    let mut steps = next.len();
    for types in next {
        steps = steps.saturating_add(types.len());
    }
    let mut seen = vec![in alloc; false; next.len()]?;
    let mut order = Vec::new(alloc);
    let mut way = Vec::new(alloc);
    for t in 0..next.len() {
        if t < seen.len() && !seen[t] {
            seen[t] = true;
            way.push((t as u32, 0))?;
            for _ in 0..steps.saturating_add(1) {
                let more = step(next, seen.as_mut_slice(), &mut way, &mut order)?;
                if !more {
                    break;
                }
            }
        }
    }
    Ok(order)
}

/// Appends types to a group, where they have none yet.
fn push_grouped(
    all: &mut Vec<u32>,
    firsts: &mut [u32],
    places: &mut [u32],
    first: u32,
    place: u32,
    types: &[u32],
) -> Result<(), AllocError> {
    for t in types {
        let at = *t as usize;
        if at < firsts.len() && at < places.len() && firsts[at] == u32::MAX {
            firsts[at] = first;
            places[at] = place;
            all.push(*t)?;
        }
    }
    Ok(())
}

/// The groups of types that reach one another: those that lead to a type, in the order behind which that leads.
pub fn groups_of(alloc: Global, next: &[Vec<u32>]) -> Result<Groups, AllocError>
    requires few { length next.now < 2 ^ 32 }
{
    let order = order_back(alloc, next)?;
    let before = reversed(alloc, next)?;
    let mut firsts = vec![in alloc; u32::MAX; next.len()]?;
    let mut places: Vec<u32> = vec![in alloc; 0; next.len()]?;
    let mut all = Vec::new(alloc);
    let mut done: usize = 0;
    let mut place: u32 = 0;
    for first in order.as_slice().iter().rev() {
        let alone = [*first];
        push_grouped(
            &mut all,
            firsts.as_mut_slice(),
            places.as_mut_slice(),
            *first,
            place,
            alone.as_slice(),
        )?;
        for _ in 0..next.len() {
            if done >= all.len() {
                break;
            }
            let v = all[done] as usize;
            done = done.saturating_add(1);
            if v < before.len() {
                push_grouped(
                    &mut all,
                    firsts.as_mut_slice(),
                    places.as_mut_slice(),
                    *first,
                    place,
                    before[v].as_slice(),
                )?;
            }
        }
        place = place.saturating_add(1);
    }
    Ok(Groups { firsts, places })
}
