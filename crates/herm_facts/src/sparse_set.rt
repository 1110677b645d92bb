//! Sets of numbers of which few words are not empty.
ghost use Rattle.std.specs.Prelude.{◌≡◌, map, true};
ghost use Rattle.herm_facts.specs.Numbers.{stand_once};

use super::FactSet;

/// A word of a set of numbers: bit j is the number j more than 64 times the place.
#[derive(Clone, Copy)]
pub struct WordAt {
    pub at: usize,
    pub set: FactSet,
}

/// A set of numbers of which few words are not empty. Each place has one word at most.
#[derive(Drop)]
pub struct SparseSet {
    pub(crate) words: Vec<WordAt>,
    ghost once: { stand_once (map (λ w. w.at) words.items) ≡ true },
}
