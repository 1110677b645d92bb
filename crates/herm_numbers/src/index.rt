//! Names by number, of which the first counts.
ghost use Rattle.std.specs.Prelude.{◌≡◌, ◌<◌, ◌^◌, ◌++◌, ◌∷◌, [], ℕ, List, IfOk, OnOk, IfSome, length, Some};
ghost use Rattle.std.specs.List.{slice_get};
ghost use Rattle.herm_naming.specs.Numbers.{place_of};
ghost use Rattle.herm_numbers.specs.Found.{Finds, IsFoundAt, IsIndexOf};

use crate::names::place_of;
use herm_base::Word;
use indexmap::IndexMap;
use std::alloc::{AllocError, Global};
use std::marker::Model;

/// Names by number, found by their bytes.
#[derive(Drop)]
pub struct Names {
    words: Vec<Word>,
    firsts: IndexMap<Vec<u8>, usize>,
}

impl Model for Names {
    ghost use Rattle.std.specs.Prelude.{List, ℕ};

    ghost Value = { List (List ℕ) };

    ghost use Rattle.herm_numbers.specs.Kept.{IsIndexed};

    ghost view = { λ a. a.words.items };

    ghost invariant = { IsIndexed };
}

/// One name more.
fn add(
    alloc: Global,
    firsts: &mut IndexMap<Vec<u8>, usize>,
    word: &Word,
    number: usize,
) -> Result<(), AllocError>
    ensures { OnOk result ((names : List (List ℕ)) → length names ≡ number → Finds (λ k. k.items) names firsts.old.entries → Finds (λ k. k.items) (names ++ word.now ∷ []) firsts.new.entries) }
{
    if firsts.contains_key(word.bytes()) {
        return Ok(());
    }
    let bytes = Vec::from_slice(alloc, word.bytes())?;
    firsts.insert(bytes, number)?;
    Ok(())
}

/// The first number of each name.
fn firsts_of(alloc: Global, words: &[Word]) -> Result<IndexMap<Vec<u8>, usize>, AllocError>
    ensures { IfOk result (λ m. Finds (λ k. k.items) words.now m.entries) }
{
    let mut firsts: IndexMap<Vec<u8>, usize> = IndexMap::with_capacity(alloc, words.len())?;
    for (number, word) in words.iter().enumerate() {
        add(alloc, &mut firsts, word, number)?;
    }
    Ok(firsts)
}

/// Of so many names each is looked at in turn, since an index of them would take longer to make.
const FEW: usize = 8;

/// The first number of each name, where there are more than a few.
fn index_of(alloc: Global, words: &[Word]) -> Result<IndexMap<Vec<u8>, usize>, AllocError>
    ensures { IfOk result (λ m. IsIndexOf (λ k. k.items) words.now m.entries) }
{
    if words.len() <= FEW {
        return Ok(IndexMap::new(alloc));
    }
    let firsts = firsts_of(alloc, words)?;
    Ok(firsts)
}

/// The place of a name by the first number of each, or the number of all words where it is not there.
fn place_by(words: &[Word], firsts: &IndexMap<Vec<u8>, usize>, name: &[u8]) -> usize
    requires { Finds (λ k. k.items) words.now firsts.now.entries }
    ensures { result ≡ place_of name.now words.now }
{
    match firsts.get(name) {
        Some(number) => *number,
        None => words.len(),
    }
}

impl Names {
    /// These names, by number.
    pub fn of(alloc: Global, words: Vec<Word>) -> Result<Names, AllocError>
        ensures { IfOk result (λ n. n ≡ words.items) }
    {
        let firsts = index_of(alloc, words.as_slice())?;
        Ok(Names { words, firsts })
    }

    /// How many names there are.
    pub fn len(&self) -> usize
        ensures { result ≡ length self.now }
    {
        self.words.len()
    }

    /// The place of a name, or the number of all names where it is not there.
    pub fn place(&self, name: &[u8]) -> usize
        ensures { result ≡ place_of name.now self.now }
    {
        let words = self.words.as_slice();
        if words.len() <= FEW {
            return place_of(name, words);
        }
        place_by(words, &self.firsts, name)
    }

    /// The same as a number of 32 bits.
    pub fn number(&self, name: &[u8]) -> u32
        requires few { length self.now < 2 ^ 32 }
        ensures { result ≡ place_of name.now self.now }
    {
        let place = self.place(name);
        place as u32
    }

    pub fn words(&self) -> &[Word]
        ensures { result.now ≡ self.now }
    {
        self.words.as_slice()
    }
}
