//! Facts that every edge treats alike: one of them stands for the others in the searches.
ghost use Rattle.std.specs.Prelude.{◌≡◌, ◌<◌, ◌^◌, ◌*◌, ◌+◌, ℕ, true, Some, length, IfOk, OnOk, slice_get};
ghost use Rattle.std.specs.declared.vec.Vec.{Vec as VecOf};
ghost use Rattle.herm_model.specs.Lists.{IsIn};
ghost use Rattle.herm_model.specs.Paths.{Fact as FactOf};
ghost use Rattle.herm_types.specs.declared.fact.Fact.{Fact as FactHere};
ghost use Rattle.herm_types.specs.View.{fact_view};
ghost use Rattle.herm_facts.specs.FactSets.{has};
ghost use Rattle.herm_facts.specs.FactNumbers.{number_of};
ghost use Rattle.herm_facts.specs.NumberSets.{has_number};
ghost use Rattle.herm_facts.specs.SparseSets.{has_sparse};
ghost use Rattle.herm_flow.specs.OnwardView.{onward_flow_view};
ghost use Rattle.herm_check.specs.declared.lists.ListsOf.{ListsOf as ListsHere};
ghost use Rattle.herm_check.specs.Lists.{at_has};
ghost use Rattle.herm_check.specs.Missing.{AreKept};
ghost use Rattle.herm_check.specs.Alike.{AreStoodFor, StartsAlike, StartAlike, IsCovered, AreCovered, AreListsCovered, AreGroups, AreListsAlike, AreNumbered};

use crate::effects::is_held_at_start;
use crate::lists::{ListsOf, lists_in};
use crate::search::SHARED;
use herm_facts::{FactNumbers, FactSet, NumberSet, SparseSet};
use herm_flow::OnwardFlow;
use herm_types::Fact;
use std::alloc::{AllocError, Global};
use std::collections::BTreeMap;

/// The facts that stand for others, by their numbers; and for each lost fact the number of the one that stands for it.
#[derive(Drop)]
pub struct Standing {
    pub numbers: FactNumbers,
    pub by: Vec<usize>,
}

/// Spreads a number over 64 bits (the last steps of SplitMix64: Steele, Lea and Flood, "Fast splittable pseudorandom number generators", 2014).
fn mixed(number: u64) -> u64 {
    let first = number.wrapping_mul(0x9E37_79B9_7F4A_7C15);
    let second = (first ^ (first >> 30)).wrapping_mul(0xBF58_476D_1CE4_E5B9);
    let third = (second ^ (second >> 27)).wrapping_mul(0x94D0_49BB_1331_11EB);
    third ^ (third >> 31)
}

/// Mixes the number of a list into the key of a fact.
fn mix_key(keys: &mut [u64], n: usize, list: u64)
    ensures { length keys.new ≡ length keys.old }
{
    if n < keys.len() {
        keys[n] ^= list;
    }
}

/// Mixes the number of a list into the keys of the facts of a word.
fn mix_word(keys: &mut [u64], at: usize, word: FactSet, list: u64)
    requires { at < 2 ^ 58 }
    ensures { length keys.new ≡ length keys.old }
{
    if word.is_empty() {
        return;
    }
    for j in 0..SHARED {
        if word.holds(j) {
            mix_key(keys, SHARED * at + j, list);
        }
    }
}

/// Mixes the numbers of lists into the keys of their facts. The next list has the number behind them.
fn mix_sets(keys: &mut [u64], sets: &[SparseSet], list: &mut u64)
    ensures { length keys.new ≡ length keys.old }
{
    for set in sets {
        *list = list.wrapping_add(1);
        let mix = mixed(*list);
        for at in 0..keys.len() / SHARED + 1 {
            mix_word(keys, at, set.word(at), mix);
        }
    }
}

/// Keys that are likely the same exactly for facts that are in the same lists. What they say is looked at afterwards (`are_alike`).
fn keys_in(alloc: Global, lists: &[ListsOf], count: usize) -> Result<Vec<u64>, AllocError>
    ensures { IfOk result (λ keys. length keys.items ≡ count) }
{
    let mut keys = vec![in alloc; 0; count]?;
    let mut list = 0;
    for point in lists {
        mix_sets(keys.as_mut_slice(), point.made.as_slice(), &mut list);
        mix_sets(keys.as_mut_slice(), point.gone.as_slice(), &mut list);
    }
    Ok(keys)
}

/// For each key the place of the first one like it.
fn firsts_of(alloc: Global, keys: &[u64]) -> Result<Vec<usize>, AllocError>
    ensures { IfOk result (λ firsts. length firsts.items ≡ length keys.now) }
{
    let mut places: BTreeMap<u64, usize> = BTreeMap::new(alloc);
    let mut firsts = Vec::with_capacity(alloc, keys.len())?;
    for n in 0..keys.len() {
        let first = places.get(&keys[n]).copied().unwrap_or(n);
        if first == n {
            places.insert(keys[n], n)?;
        }
        firsts.push(first)?;
    }
    Ok(firsts)
}

/// The numbers below the count.
fn own_numbers(alloc: Global, count: usize) -> Result<Vec<usize>, AllocError>
    ensures own { IfOk result (λ own. (n m : ℕ) → slice_get own.items n ≡ Some m → n ≡ m) }
    ensures many { IfOk result (λ own. length own.items ≡ count) }
{
    let mut own = Vec::with_capacity(alloc, count)?;
    for n in 0..count {
        own.push(n)?;
    }
    Ok(own)
}

/// So many groups without numbers.
fn empty_groups(alloc: Global, count: usize) -> Result<Vec<Vec<usize>>, AllocError>
    ensures { IfOk result (λ groups. length groups.items ≡ count) }
{
    let mut groups = Vec::with_capacity(alloc, count)?;
    for _ in 0..count {
        groups.push(Vec::new(alloc))?;
    }
    Ok(groups)
}

/// Adds a number to the group at a place, where there is one.
fn add_to_group(groups: &mut Vec<Vec<usize>>, place: usize, n: usize) -> Result<(), AllocError>
    ensures many { OnOk result (length groups.new.items ≡ length groups.old.items) }
    ensures added { OnOk result ((g : VecOf ℕ Global) → slice_get groups.new.items place ≡ Some g → IsIn n g.items) }
    ensures kept { OnOk result ((m : ℕ) (g : VecOf ℕ Global) → slice_get groups.new.items m ≡ Some g → (h : VecOf ℕ Global) × (slice_get groups.old.items m ≡ Some h) × ((k : ℕ) → IsIn k h.items → IsIn k g.items)) }
{
    if place < groups.len() {
        groups[place].push(n)?;
    }
    Ok(())
}

/// The numbers of each group, by the first of them.
fn groups_of(alloc: Global, firsts: &[usize]) -> Result<Vec<Vec<usize>>, AllocError>
    ensures many { IfOk result (λ groups. length groups.items ≡ length firsts.now) }
    ensures groups { IfOk result (λ groups. AreGroups firsts.now groups.items) }
{
    let mut groups = empty_groups(alloc, firsts.len())?;
    for n in 0..firsts.len() {
        add_to_group(&mut groups, firsts[n], n)?;
    }
    Ok(groups)
}

/// Whether a fact and the first one of its group are both held when a process begins, or none of them.
fn starts_alike(facts: &[Fact], firsts: &[usize], n: usize) -> bool
    requires within { n < length firsts.now }
    requires many { length firsts.now ≡ length facts.now }
    ensures { result ≡ true → StartsAlike facts.now firsts.now n }
{
    let first = firsts[n];
    if first >= facts.len() {
        return false;
    }
    let held = is_held_at_start(&facts[first]);
    if is_held_at_start(&facts[n]) {
        return held;
    }
    !held
}

/// Whether so it is of each fact.
fn start_alike(facts: &[Fact], firsts: &[usize]) -> bool
    requires { length firsts.now ≡ length facts.now }
    ensures { result ≡ true → StartAlike facts.now firsts.now }
{
    for n in 0..firsts.len() {
        if !starts_alike(facts, firsts, n) {
            return false;
        }
    }
    true
}

fn are_in(set: &NumberSet, numbers: &[usize]) -> bool
    ensures { result ≡ true → (m : ℕ) → IsIn m numbers.now → has_number set.now m ≡ true }
{
    for m in numbers {
        if !set.holds(*m) {
            return false;
        }
    }
    true
}

/// Whether the set has the first number of a number's group; behind the last number there is none.
fn has_first(set: &NumberSet, firsts: &[usize], n: usize) -> bool
    ensures { result ≡ true → (m : ℕ) → slice_get firsts.now n ≡ Some m → has_number set.now m ≡ true }
{
    match firsts.get(n) {
        Some(first) => set.holds(*first),
        None => true,
    }
}

/// Whether the set has the group of which a number is the first one.
fn has_group(set: &NumberSet, groups: &[Vec<usize>], n: usize) -> bool
    ensures { result ≡ true → (g : VecOf ℕ Global) (m : ℕ) → slice_get groups.now n ≡ Some g → IsIn m g.items → has_number set.now m ≡ true }
{
    match groups.get(n) {
        Some(group) => are_in(set, group.as_slice()),
        None => true,
    }
}

/// Whether the set has the first number of a number's group, and the group of which it is the first one.
fn is_covered(set: &NumberSet, firsts: &[usize], groups: &[Vec<usize>], n: usize) -> bool
    ensures { result ≡ true → IsCovered (has_number set.now) firsts.now groups.now n }
{
    if !has_first(set, firsts, n) {
        return false;
    }
    has_group(set, groups, n)
}

/// Whether so it is of a number of a word of the set, if the word has it.
fn is_bit_covered(
    set: &NumberSet,
    at: usize,
    word: FactSet,
    j: usize,
    firsts: &[usize],
    groups: &[Vec<usize>],
) -> bool
    requires few { at < 2 ^ 58 }
    requires within { j < 64 }
    ensures { result ≡ true → has word j ≡ true → IsCovered (has_number set.now) firsts.now groups.now (64 * at + j) }
{
    if !word.holds(j) {
        return true;
    }
    is_covered(set, firsts, groups, SHARED * at + j)
}

/// Whether so it is of each number of a word of the set.
fn is_word_covered(
    set: &NumberSet,
    at: usize,
    word: FactSet,
    firsts: &[usize],
    groups: &[Vec<usize>],
) -> bool
    requires { at < 2 ^ 58 }
    ensures { result ≡ true → (j : ℕ) → j < 64 → has word j ≡ true → IsCovered (has_number set.now) firsts.now groups.now (64 * at + j) }
{
    if word.is_empty() {
        return true;
    }
    for j in 0..SHARED {
        if !is_bit_covered(set, at, word, j, firsts, groups) {
            return false;
        }
    }
    true
}

/// Whether a list has all of a group of numbers, or none, for each group.
fn is_set_covered(
    alloc: Global,
    set: &SparseSet,
    firsts: &[usize],
    groups: &[Vec<usize>],
) -> Result<bool, AllocError>
    ensures { IfOk result (λ covered. covered ≡ true → AreCovered (has_sparse set.now) firsts.now groups.now (length firsts.now)) }
{
    let mut dense = NumberSet::none(alloc);
    dense.union(set)?;
    for at in 0..firsts.len() / SHARED + 1 {
        if !is_word_covered(&dense, at, set.word(at), firsts, groups) {
            return Ok(false);
        }
    }
    Ok(true)
}

fn are_sets_covered(
    alloc: Global,
    sets: &[SparseSet],
    firsts: &[usize],
    groups: &[Vec<usize>],
) -> Result<bool, AllocError>
    ensures { IfOk result (λ covered. covered ≡ true → (i : ℕ) → AreCovered (at_has sets.now i) firsts.now groups.now (length firsts.now)) }
{
    for set in sets {
        if !is_set_covered(alloc, set, firsts, groups)? {
            return Ok(false);
        }
    }
    Ok(true)
}

fn are_lists_covered(
    alloc: Global,
    lists: &[ListsOf],
    firsts: &[usize],
    groups: &[Vec<usize>],
) -> Result<bool, AllocError>
    ensures { IfOk result (λ covered. covered ≡ true → (i : ℕ) (l : ListsHere) → slice_get lists.now i ≡ Some l → AreListsCovered l firsts.now groups.now (length firsts.now)) }
{
    for point in lists {
        if !are_sets_covered(alloc, point.made.as_slice(), firsts, groups)? {
            return Ok(false);
        }
        if !are_sets_covered(alloc, point.gone.as_slice(), firsts, groups)? {
            return Ok(false);
        }
    }
    Ok(true)
}

/// Whether the lists, and the beginning, treat each fact as the first one of its group.
fn are_alike(
    alloc: Global,
    lists: &[ListsOf],
    facts: &[Fact],
    firsts: &[usize],
) -> Result<bool, AllocError>
    requires { length firsts.now ≡ length facts.now }
    ensures start { IfOk result (λ alike. alike ≡ true → StartAlike facts.now firsts.now) }
    ensures lists { IfOk result (λ alike. alike ≡ true → AreListsAlike lists.now firsts.now) }
{
    if !start_alike(facts, firsts) {
        return Ok(false);
    }
    let groups = groups_of(alloc, firsts)?;
    let covered = are_lists_covered(alloc, lists, firsts, groups.as_slice())?;
    Ok(covered)
}

/// The number of the first fact of a group among those that stand for others.
fn number_first(
    alloc: Global,
    facts: &[Fact],
    first: usize,
    numbers: &mut FactNumbers,
) -> Result<usize, AllocError>
    requires { first < length facts.now }
    ensures number { IfOk result (λ k. (g : FactHere) → slice_get facts.now first ≡ Some g → number_of numbers.new (fact_view g) ≡ Some k) }
    ensures kept { OnOk result (AreKept numbers.old numbers.new) }
{
    let number = numbers.add(alloc, &facts[first])?;
    Ok(number)
}

/// Numbers for the first facts of the groups, and for each fact the number of that of its group.
fn stand_for(alloc: Global, facts: &[Fact], firsts: &[usize]) -> Result<Standing, AllocError>
    requires many { length firsts.now ≡ length facts.now }
    requires start { StartAlike facts.now firsts.now }
    ensures numbered { IfOk result (λ standing. AreNumbered facts.now firsts.now standing.numbers standing.by.items) }
    ensures some { IfOk result (λ standing. (f : FactOf) (n : ℕ) → number_of standing.numbers f ≡ Some n → 0 < length facts.now) }
{
    let mut numbers = FactNumbers::none(alloc);
    let mut by = Vec::with_capacity(alloc, facts.len())?;
    for n in 0..facts.len() {
        let number = number_first(alloc, facts, firsts[n], &mut numbers)?;
        by.push(number)?;
    }
    Ok(Standing { numbers, by })
}

/// Facts that stand for those that have numbers: each for all that the edges treat alike, or, where those are few, for itself alone.
pub fn standing_in(
    alloc: Global,
    flow: &OnwardFlow,
    lost: &FactNumbers,
) -> Result<Standing, AllocError>
    ensures stood { IfOk result (λ standing. AreStoodFor (onward_flow_view flow.now) lost.now standing.by.items standing.numbers) }
    ensures some { IfOk result (λ standing. (f : FactOf) (n : ℕ) → number_of standing.numbers f ≡ Some n → (g : FactOf) × (m : ℕ) × (number_of lost.now g ≡ Some m)) }
{
    let facts = lost.facts();
    if facts.len() > SHARED {
        let lists = lists_in(alloc, flow, lost)?;
        let keys = keys_in(alloc, lists.as_slice(), facts.len())?;
        let firsts = firsts_of(alloc, keys.as_slice())?;
        if are_alike(alloc, lists.as_slice(), facts, firsts.as_slice())? {
            let standing = stand_for(alloc, facts, firsts.as_slice())?;
            return Ok(standing);
        }
    }
    let own = own_numbers(alloc, facts.len())?;
    let standing = stand_for(alloc, facts, own.as_slice())?;
    Ok(standing)
}
