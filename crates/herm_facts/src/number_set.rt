//! Sets of numbers.
ghost use Rattle.std.specs.Prelude.{◌≡◌, ℕ, ◌<◌, ◌≤◌, ◌&&◌, ◌||◌, not, true, false, nat_eq, length, OnOk, OnErr, IfOk};
ghost use Rattle.herm_model.specs.Lists.{any_pass};
ghost use Rattle.herm_facts.specs.FactSets.{has};
ghost use Rattle.herm_facts.specs.NumberSets.{has_at, has_number};
ghost use Rattle.herm_facts.specs.SparseSets.{word_has, has_sparse};

use super::FactSet;
use crate::sparse_set::{SparseSet, WordAt};
use crate::sparse_words::filled_words;
use std::alloc::{AllocError, Global};

/// A set of numbers, a bit for each.
#[derive(Drop)]
pub struct NumberSet {
    words: Vec<FactSet>,
}

impl NumberSet {
    pub fn none(alloc: Global) -> NumberSet
        ensures { (n : ℕ) → has_number result n ≡ false }
    {
        NumberSet {
            words: Vec::new(alloc),
        }
    }

    /// The same numbers.
    #[inline(always)]
    pub fn copy(&self, alloc: Global) -> Result<NumberSet, AllocError>
        ensures { IfOk result (λ copy. (n : ℕ) → has_number copy n ≡ has_number self.now n) }
    {
        let words = Vec::from_slice(alloc, self.words.as_slice())?;
        Ok(NumberSet { words })
    }

    #[inline(always)]
    pub fn holds(&self, number: usize) -> bool
        ensures { result ≡ has_number self.now number }
    {
        word_at(self.words.as_slice(), number / 64).holds(number % 64)
    }

    /// Adds the number. The set takes memory of a bit for each number up to the greatest: n / 8 bytes, where n is the greatest that was added, and what is left free behind them.
    pub fn insert(&mut self, number: usize) -> Result<(), AllocError>
        ensures ok { OnOk result ((n : ℕ) → has_number self.new n ≡ (nat_eq n number || has_number self.old n)) }
        ensures err { OnErr result ((n : ℕ) → has_number self.new n ≡ has_number self.old n) }
    {
        let at = number / 64;
        self.reach(at)?;
        self.words[at] = self.words[at].with(number % 64);
        Ok(())
    }

    /// Adds the numbers. Where memory is wanting, some of them may be in it and some not.
    pub(crate) fn insert_all(&mut self, numbers: &[usize]) -> Result<(), AllocError>
        ensures { OnOk result ((n : ℕ) → has_number self.new n ≡ (any_pass (nat_eq n) numbers.now || has_number self.old n)) }
    {
        for number in numbers {
            self.insert(*number)?;
        }
        Ok(())
    }

    /// The same numbers as a sparse set.
    pub(crate) fn sparse(&self, alloc: Global) -> Result<SparseSet, AllocError>
        ensures { IfOk result (λ set. (n : ℕ) → has_sparse set n ≡ has_number self.now n) }
    {
        let words = filled_words(alloc, self.words.as_slice())?;
        Ok(SparseSet { words })
    }

    /// Keeps the numbers that the other set has too.
    #[inline(always)]
    pub fn intersect(&mut self, other: &NumberSet)
        ensures { (n : ℕ) → has_number self.new n ≡ (has_number self.old n && has_number other.now n) }
    {
        self.words.truncate(other.words.len());
        keep_common(self.words.as_mut_slice(), other.words.as_slice());
    }

    /// Adds the numbers. Where memory is wanting, some of them may be in it and some not.
    pub fn union(&mut self, more: &SparseSet) -> Result<(), AllocError>
        ensures ok { OnOk result ((n : ℕ) → has_number self.new n ≡ (has_number self.old n || has_sparse more.now n)) }
        ensures kept { OnErr result ((n : ℕ) → has_number self.old n ≡ true → has_number self.new n ≡ true) }
        ensures only { OnErr result ((n : ℕ) → has_number self.new n ≡ true → (has_number self.old n || has_sparse more.now n) ≡ true) }
    {
        for word in more.words.as_slice() {
            self.union_word(word)?;
        }
        Ok(())
    }

    /// Takes the numbers out.
    pub fn subtract(&mut self, less: &SparseSet)
        ensures { (n : ℕ) → has_number self.new n ≡ (has_number self.old n && not (has_sparse less.now n)) }
    {
        for word in less.words.as_slice() {
            self.subtract_word(word);
        }
    }

    /// Whether the other set has each of the numbers.
    #[inline(always)]
    pub fn is_below(&self, other: &NumberSet) -> bool
        ensures below { result ≡ true → (n : ℕ) → has_number self.now n ≡ true → has_number other.now n ≡ true }
        ensures beyond { result ≡ false → (n : ℕ) × (has_number self.now n ≡ true) × (has_number other.now n ≡ false) }
    {
        excess(self.words.as_slice(), other.words.as_slice()).is_empty()
    }

    /// Adds the numbers of the word.
    #[inline(always)]
    fn union_word(&mut self, word: &WordAt) -> Result<(), AllocError>
        ensures ok { OnOk result ((n : ℕ) → has_number self.new n ≡ (has_number self.old n || word_has n word.now)) }
        ensures err { OnErr result ((n : ℕ) → has_number self.new n ≡ has_number self.old n) }
    {
        let at = word.at;
        self.reach(at)?;
        self.words[at] = self.words[at].either(word.set);
        Ok(())
    }

    /// Takes the numbers of the word out.
    #[inline(always)]
    fn subtract_word(&mut self, word: &WordAt)
        ensures { (n : ℕ) → has_number self.new n ≡ (has_number self.old n && not (word_has n word.now)) }
    {
        let at = word.at;
        if at < self.words.len() {
            self.words[at] = self.words[at].without(word.set);
        }
    }

    /// Appends empty words until there is one at the place.
    fn reach(&mut self, at: usize) -> Result<(), AllocError>
        ensures kept { (n : ℕ) → has_number self.new n ≡ has_number self.old n }
        ensures reached { OnOk result (at < length self.new.words.items) }
    {
        while self.words.len() <= at {
            self.words.push(FactSet::none())?;
        }
        Ok(())
    }
}

/// The word at the place, or an empty one.
#[inline(always)]
fn word_at(words: &[FactSet], at: usize) -> FactSet
    ensures { (j : ℕ) → has result j ≡ has_at words.now at j }
{
    match words.get(at) {
        Some(word) => *word,
        None => FactSet::none(),
    }
}

/// Keeps in each word what the other word at its place has too.
#[inline(always)]
fn keep_common(words: &mut [FactSet], others: &[FactSet])
    requires { length words.now ≤ length others.now }
    ensures { (i j : ℕ) → has_at words.new i j ≡ (has_at words.old i j && has_at others.now i j) }
{
    for i in 0..words.len() {
        words[i] = words[i].both(others[i]);
    }
}

/// The bits that some word has and the other word at its place lacks.
#[inline(always)]
fn excess(words: &[FactSet], others: &[FactSet]) -> FactSet
    ensures none { (i j : ℕ) → has result j ≡ false → has_at words.now i j ≡ true → has_at others.now i j ≡ true }
    ensures some { (j : ℕ) → has result j ≡ true → (i : ℕ) × (has_at words.now i j ≡ true) × (has_at others.now i j ≡ false) }
{
    let common = words.len().min(others.len());
    let mut excess = FactSet::none();
    for i in 0..common {
        excess = excess.either(words[i].without(others[i]));
    }
    for i in common..words.len() {
        excess = excess.either(words[i]);
    }
    excess
}
