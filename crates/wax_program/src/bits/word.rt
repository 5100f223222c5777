//! Sets of places below 64, one bit each, in one word.
ghost use Rattle.std.specs.Prelude.{◌≡◌, ◌<◌, ◌≤◌, ◌↔◌, ℕ, IsTrue, false, length, slice_index_or, slice_set};
ghost use Rattle.std.specs.Prelude.{true};
ghost use Rattle.wax_program.specs.{Bits.places_of, Places.{HoldsPlace, IsEmpty}};

use std::marker::Model;

/// A set of places below 64.
#[derive(Drop)]
pub struct Word {
    bits: u64,
}

impl Model for Word {
    ghost use Rattle.std.specs.Prelude.{Bool, List, [], ◌∷◌};
    ghost use Rattle.wax_program.specs.Bits.{bits_of};

    ghost Value = { List Bool };

    ghost view = { λ w. bits_of (w.bits ∷ []) };
}

impl Word {
    /// Creates the empty set.
    #[inline]
    pub fn new() -> Word
        ensures room { length result ≡ 64 }
        ensures empty { IsEmpty result }
    {
        Word { bits: 0 }
    }

    /// Returns the set as a word.
    #[inline]
    pub fn bits(&self) -> u64
        ensures { self.now ≡ places_of result }
    {
        self.bits
    }

    /// Returns whether it is the set of this word.
    #[inline]
    pub fn is(&self, bits: u64) -> bool
        ensures { IsTrue result ↔ (self.now ≡ places_of bits) }
    {
        self.bits == bits
    }

    /// Returns whether the place is in the set.
    #[inline]
    pub fn contains(&self, at: usize) -> bool
        requires { at < length self.now }
        ensures { result ≡ slice_index_or self.now at false }
    {
        (self.bits >> (at % 64)) & 1 == 1
    }

    /// Inserts a place.
    #[inline]
    pub fn insert(&mut self, at: usize)
        requires { at < length self.old }
        ensures { self.new ≡ slice_set self.old at true }
    {
        self.bits = self.bits | 1u64 << (at % 64);
    }

    /// Removes a place, if it is in the set.
    #[inline]
    pub fn remove(&mut self, at: usize)
        requires { at < length self.old }
        ensures { self.new ≡ slice_set self.old at false }
    {
        self.bits = self.bits & !(1u64 << (at % 64));
    }

    /// Removes every place.
    #[inline]
    pub fn clear(&mut self)
        ensures room { length self.new ≡ length self.old }
        ensures empty { IsEmpty self.new }
    {
        self.bits = 0;
    }

    /// Returns the lowest place, or 64 if the set is empty.
    #[inline]
    pub fn first(&self) -> usize
        ensures lowest { (k : ℕ) → HoldsPlace self.now k → result ≤ k }
        ensures held { result < length self.now → HoldsPlace self.now result }
    {
        self.bits.trailing_zeros() as usize
    }
}
