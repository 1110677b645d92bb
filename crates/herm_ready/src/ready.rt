//! A set of numbers up to a limit: one bit for each, in words of 64.
ghost use Rattle.std.specs.Prelude.{◌≡◌, ◌≤◌, ◌↔◌, [], true, IfOk};
ghost use Rattle.herm_waking.specs.Numbers.{has, inserted, removed, next_from as first_from};

use std::alloc::{AllocError, Global};
use std::marker::Model;

/// How many numbers one word keeps.
const WORD: u32 = 64;

/// The numbers of the processes that can step, up to a limit. Contracts see the limit and the rising list of the members.
#[derive(Drop)]
pub struct Ready {
    limit: u32,
    // Bit i is 1 where word i is not 0.
    filled: u64,
    // Number n is a member where bit n % 64 of word n / 64 is 1.
    words: Vec<u64>,
}

impl Model for Ready {
    ghost use Rattle.herm_ready.specs.Table.{ReadySet, ready_code};
    ghost use Rattle.herm_ready.specs.Words.{members, IsTable};

    ghost Value = { ReadySet };

    ghost coded = { ready_code };

    ghost view = { λ r. record { limit = r.limit; members = members r.words.items } };

    ghost invariant = { λ r. IsTable r.limit r.filled r.words.items };
}

impl Ready {
    /// No members, with room for the numbers up to this limit.
    pub fn new(alloc: Global, limit: u32) -> Result<Ready, AllocError>
        requires limit { limit ≤ 1024 }
        ensures limit { IfOk result (λ r. r.limit ≡ limit) }
        ensures none { IfOk result (λ r. r.members ≡ []) }
    {
        let words = vec![in alloc; 0u64; (limit / WORD) as usize + 1]?;
        Ok(Ready {
            limit,
            filled: 0,
            words,
        })
    }

    /// Whether the number is a member.
    pub fn contains(&self, n: u32) -> bool
        ensures member { result ≡ has n self.now.members }
    {
        let place = (n / WORD) as usize;
        if place >= self.words.len() {
            return false;
        }
        let word = self.words[place];
        word >> (n % WORD) & 1 == 1
    }

    /// Puts a number in. It takes no memory.
    pub fn insert(&mut self, n: u32)
        requires within { n ≤ self.old.limit }
        ensures inserted { self.new ≡ record self.old { members = inserted n self.old.members } }
    {
        self.words[(n / WORD) as usize] |= 1 << (n % WORD);
        self.filled |= 1 << (n / WORD);
    }

    /// Takes a number out, if it is a member.
    pub fn remove(&mut self, n: u32)
        ensures removed { self.new ≡ record self.old { members = removed n self.old.members } }
    {
        let place = (n / WORD) as usize;
        if place < self.words.len() {
            self.words[place] &= !(1 << (n % WORD));
            if self.words[place] == 0 {
                self.filled &= !(1 << (n / WORD));
            }
        }
    }

    /// The first member from this number on.
    pub fn next_from(&self, from: u32) -> Option<u32>
        ensures first { result ≡ first_from from self.now.members }
    {
        let place = (from / WORD) as usize;
        if place >= self.words.len() {
            return None;
        }
        let rest = self.words[place] & (u64::MAX << (from % WORD));
        if rest != 0 {
            return Some(place as u32 * WORD + rest.trailing_zeros());
        }
        let later = self.filled & (u64::MAX << (from / WORD + 1));
        if later == 0 {
            return None;
        }
        let next = later.trailing_zeros();
        let word = self.words[next as usize];
        Some(next * WORD + word.trailing_zeros())
    }

    /// Whether there are no members.
    pub fn is_empty(&self) -> bool
        ensures none { (result ≡ true) ↔ (self.now.members ≡ []) }
    {
        self.next_from(0).is_none()
    }
}
