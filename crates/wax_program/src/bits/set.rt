//! Sets of places, one bit each.
ghost use Rattle.std.specs.Prelude.{◌≡◌, ◌+◌, ◌*◌, ◌/◌, ◌^◌, ◌<◌, ◌≤◌, ℕ, Bool, List, IfOk, MatchOption};
ghost use Rattle.std.specs.Prelude.{length, slice_index_or, slice_set, true, false};
ghost use Rattle.wax_program.specs.{Bits.bits_of, Places.{HoldsPlace, IsEmpty}};

use std::alloc::{AllocError, Global};
use std::marker::Model;

/// A set of places, 64 in each word.
#[derive(Drop)]
pub struct Set {
    words: Vec<u64>,
}

impl Model for Set {
    ghost Value = { List Bool };

    ghost view = { λ s. bits_of s.words.items };

    ghost invariant = { λ s. 64 * length s.words.items ≤ 2 ^ 64 };
}

impl Set {
    /// Creates the empty set, with room for the places up to `last`.
    pub fn new(alloc: Global, last: usize) -> Result<Set, AllocError>
        ensures room { IfOk result (λ s. last < length s) }
        ensures empty { IfOk result (λ s. IsEmpty s) }
    {
        let words = vec![in alloc; 0u64; last / 64 + 1]?;
        Ok(Set { words })
    }

    /// Returns whether the place is in the set.
    pub fn contains(&self, at: usize) -> bool
        requires { at < length self.now }
        ensures { result ≡ slice_index_or self.now at false }
    {
        (self.words[at / 64] >> (at % 64)) & 1 == 1
    }

    /// Inserts a place.
    pub fn insert(&mut self, at: usize)
        requires { at < length self.old }
        ensures { self.new ≡ slice_set self.old at true }
    {
        let word = self.words[at / 64];
        self.words[at / 64] = word | 1u64 << (at % 64);
    }

    /// Removes a place, if it is in the set.
    pub fn remove(&mut self, at: usize)
        requires { at < length self.old }
        ensures { self.new ≡ slice_set self.old at false }
    {
        let word = self.words[at / 64];
        self.words[at / 64] = word & !(1u64 << (at % 64));
    }

    /// Removes every place.
    pub fn clear(&mut self)
        ensures room { length self.new ≡ length self.old }
        ensures empty { IsEmpty self.new }
    {
        self.words.fill(0);
    }

    /// Returns the lowest place in the word with this index or in a later one.
    pub fn first_from(&self, word: usize) -> Option<usize>
        ensures { MatchOption result ((k : ℕ) → HoldsPlace self.now k → k < 64 * word)
            (λ at. HoldsPlace self.now at × (64 * word ≤ at)
            × ((k : ℕ) → HoldsPlace self.now k → 64 * word ≤ k → at ≤ k)) }
    {
        for index in word..self.words.len() {
            let bits = self.words[index];
            if bits != 0 {
                return Some(index * 64 + bits.trailing_zeros() as usize);
            }
        }
        None
    }
}
