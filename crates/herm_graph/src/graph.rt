//! Which types are reached along the names in shapes.
ghost use Rattle.std.specs.Prelude.{◌≡◌, ◌+◌, ◌<◌, ◌≤◌, ◌↔◌, ℕ, Bool, true, false, ◌||◌, ◌^◌, IfOk, IsTrue, length, map, slice_get, Some, cond};
ghost use Rattle.std.specs.List.{list_any, list_all};
ghost use Rattle.herm_model.specs.Lists.{all_pass, any_pass};
ghost use Rattle.herm_types.specs.Table.{says};
ghost use Rattle.herm_types.specs.Chosen.{lists};
ghost use Rattle.herm_graph.specs.Graph.{IsReached, follows, AreReached, IsDoneAt, missing, number_at};

use crate::hints::{order_from_ends, order_to_goal};
use std::alloc::{AllocError, Global};

/// Whether one of the next types, or all of them, must be reached.
#[derive(Clone, Copy)]
pub enum Rule {
    AnyOf,
    AllOf,
}

/// What the tests say of a type.
pub fn says(tests: &[bool], t: u32) -> bool
    ensures { result ≡ says tests.now t }
{
    match tests.get(t as usize) {
        Some(test) => *test,
        None => false,
    }
}

/// The number of a type, or 0 for one that is not there.
pub fn number_at(numbers: &[u32], t: u32) -> u32
    ensures { result ≡ number_at numbers.now t }
{
    match numbers.get(t as usize) {
        Some(number) => *number,
        None => 0,
    }
}

fn any_of(goal: &[bool], found: &[bool], next: &[u32]) -> bool
    ensures { result ≡ list_any (λ v. says goal.now v || says found.now v) next.now }
{
    next.iter().any(|v| says(goal, *v) || says(found, *v))
}

fn all_of(found: &[bool], next: &[u32]) -> bool
    ensures { result ≡ list_all (says found.now) next.now }
{
    next.iter().all(|v| says(found, *v))
}

/// Whether a type is reached, where these are found.
fn follows(rule: Rule, goal: &[bool], found: &[bool], t: u32, next: &[u32]) -> bool
    ensures { result ≡ follows rule goal.now found.now t next.now }
{
    match rule {
        Rule::AnyOf => any_of(goal, found, next),
        Rule::AllOf => says(goal, t) && all_of(found, next),
    }
}

/// Looks at one type again, and says whether it is found now and was not before.
fn visit(rule: Rule, goal: &[bool], next: &[Vec<u32>], t: u32, found: &mut [bool]) -> bool
    requires each { length found.old ≡ length next.now }
    ensures reached { AreReached rule goal.now (lists next.now) found.old → AreReached rule goal.now (lists next.now) found.new }
    ensures count { missing found.new + cond result 1 0 ≡ missing found.old }
    ensures same { result ≡ false → found.new ≡ found.old }
    ensures done { result ≡ false → IsDoneAt rule goal.now (lists next.now) found.old t }
{
    let place = t as usize;
    if place >= next.len() {
        return false;
    }
    if found[place] {
        return false;
    }
    if !follows(rule, goal, found, t, next[place].as_slice()) {
        return false;
    }
    found[place] = true;
    true
}

/// Looks at all types again, and says whether one more was found.
fn pass(rule: Rule, goal: &[bool], next: &[Vec<u32>], found: &mut [bool]) -> bool
    requires each { length found.old ≡ length next.now }
    requires few { length next.now < 2 ^ 32 }
    ensures reached { AreReached rule goal.now (lists next.now) found.old → AreReached rule goal.now (lists next.now) found.new }
    ensures count { missing found.new + cond result 1 0 ≤ missing found.old }
    ensures done { result ≡ false → (t : ℕ) → t < length next.now → IsDoneAt rule goal.now (lists next.now) found.new t }
{
    let mut changed = false;
    for place in 0..next.len() {
        let more = visit(rule, goal, next, place as u32, found);
        changed = changed || more;
    }
    changed
}

/// Looks at types again in an order.
fn pass_in(rule: Rule, goal: &[bool], next: &[Vec<u32>], order: &[u32], found: &mut [bool])
    requires each { length found.old ≡ length next.now }
    ensures { AreReached rule goal.now (lists next.now) found.old → AreReached rule goal.now (lists next.now) found.new }
{
    for t in order {
        visit(rule, goal, next, *t, found);
    }
}

/// An order in which one look at each type finds all.
fn order_of(
    alloc: Global,
    rule: Rule,
    goal: &[bool],
    next: &[Vec<u32>],
) -> Result<Vec<u32>, AllocError>
    requires few { length next.now < 2 ^ 32 }
{
    match rule {
        Rule::AnyOf => order_to_goal(alloc, goal, next),
        Rule::AllOf => order_from_ends(alloc, goal, next),
    }
}

/// Which types are reached. All are looked at in an order that finds them, and then until nothing more is found.
pub fn reached(
    alloc: Global,
    rule: Rule,
    goal: &[bool],
    next: &[Vec<u32>],
) -> Result<Vec<bool>, AllocError>
    requires few { length next.now < 2 ^ 32 }
    ensures { IfOk result (λ v. (t : ℕ) → IsTrue (says v.items t) ↔ IsReached rule goal.now (lists next.now) t) }
{
    let order = order_of(alloc, rule, goal, next)?;
    let mut found = vec![in alloc; false; next.len()]?;
    pass_in(rule, goal, next, order.as_slice(), found.as_mut_slice());
    'passes: while pass(rule, goal, next, found.as_mut_slice()) {}
    Ok(found)
}
