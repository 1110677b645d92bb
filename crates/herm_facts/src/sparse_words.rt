//! The words of sparse sets.
ghost use Rattle.std.specs.Prelude.{◌≡◌, ℕ, ◌<◌, ◌+◌, ◌*◌, ◌/◌, ◌%◌, true, false, nat_eq, length, slice_get, Some, IfSome, IfNone, IfOk};
ghost use Rattle.herm_model.specs.Lists.{any_pass};
ghost use Rattle.herm_facts.specs.FactSets.{has};
ghost use Rattle.herm_facts.specs.NumberSets.{has_at};
ghost use Rattle.herm_facts.specs.Numbers.{stand_once};
ghost use Rattle.herm_facts.specs.SparseSets.{word_has, has_sparse, places_of};

use crate::fact_set::FactSet;
use crate::sparse_set::{SparseSet, WordAt};
use std::alloc::{AllocError, Global};

/// Where a word of this place stands in the list.
fn index_of(words: &[WordAt], at: usize) -> Option<usize>
    ensures found { IfSome result (λ i. (i < length words.now) × (slice_get (places_of words.now) i ≡ Some at)) }
    ensures none { IfNone result (any_pass (nat_eq at) (places_of words.now) ≡ false) }
{
    for i in 0..words.len() {
        if at == words[i].at {
            return Some(i);
        }
    }
    None
}

/// The words that are not empty, with their places, in the order of these.
pub fn filled_words(alloc: Global, words: &[FactSet]) -> Result<Vec<WordAt>, AllocError>
    ensures once { IfOk result (λ filled. stand_once (places_of filled.items) ≡ true) }
    ensures same { IfOk result (λ filled. (n : ℕ) → any_pass (word_has n) filled.items ≡ has_at words.now (n / 64) (n % 64)) }
{
    let mut filled = Vec::new(alloc);
    for at in 0..words.len() {
        let set = words[at];
        if !set.is_empty() {
            filled.push(WordAt { at, set })?;
        }
    }
    Ok(filled)
}

impl SparseSet {
    /// The 64 numbers from 64 times the place on.
    pub fn word(&self, at: usize) -> FactSet
        ensures { (j : ℕ) → j < 64 → has result j ≡ has_sparse self.now (64 * at + j) }
    {
        match index_of(self.words.as_slice(), at) {
            Some(i) => self.words[i].set,
            None => FactSet::none(),
        }
    }
}
