//! An index that finds states by their places.
ghost use Rattle.std.specs.Prelude.{◌≡◌, ◌+◌, ◌<◌, ◌∷◌, ◌++◌, ◌↔◌, ℕ, [], List, IfOk, IsTrue, MatchOption};
ghost use Rattle.std.specs.Prelude.{Some, length, map, slice_get, slice_index};
ghost use Rattle.wax_states.specs.Indexed.{AreIndexed, HasNone};
ghost use Rattle.wax_states.specs.inner.Slots.{IsEntered, KeepsEntered, hash_of, hash_with, slot_index};

use std::alloc::{AllocError, Global};
use std::marker::Model;

/// A state that is found by its places.
pub trait HasPlaces {
    // Its places.
    ghost places_of: { Self → List ℕ };

    /// Returns the places.
    fn places(&self) -> &[usize]
        ensures { result.now ≡ places_of self.now };
}

/// Finds the states of a list by their places: a hash table, at most half full.
#[derive(Drop)]
pub struct Index {
    /// The number of a state plus 1, at the hash of its places or soon after it. Empty slots are 0.
    slots: Vec<u32>,
}

impl Model for Index {
    ghost Value = { List ℕ };

    ghost view = { λ s. s.slots.items };
}

impl Index {
    /// Creates an empty index, which has room for `most` states before it grows. Allocates 8 to 32
    /// bytes for each of them.
    pub fn new(alloc: Global, most: usize) -> Result<Index, AllocError> {
        let slots = vec![in alloc; 0u32; slots_for(most)]?;
        Ok(Index { slots })
    }

    /// Returns the number of the state with these places. If all states were entered, `None` means
    /// that no state has them.
    pub fn find<S: HasPlaces>(&self, states: &[S], places: &[usize]) -> Option<usize>
        ensures { MatchOption result (AreIndexed self.now (map S.places_of states.now)
            → HasNone (map S.places_of states.now) places.now)
            (λ t. slice_get (map S.places_of states.now) t ≡ Some places.now) }
    {
        let hash = hash_of(places);
        for probe in 0..self.slots.len() {
            let slot = self.slots[slot_index(self.slots.len(), hash, probe)];
            if slot == 0 {
                return None;
            }
            let number = slot as usize - 1;
            if has_places(states, number, places) {
                return Some(number);
            }
        }
        None
    }

    /// Enters a state that will be the next one in the list, after `states`, which were entered. Makes
    /// twice as many slots if half of them are full.
    ///
    /// # Errors
    ///
    /// Returns `AllocError` if allocation fails, or if there are 4,294,967,295 states.
    pub fn enter<S: HasPlaces>(&mut self, states: &[S], state: &S) -> Result<(), AllocError>
        ensures { IfOk result (λ _. AreIndexed self.old (map S.places_of states.now)
            → AreIndexed self.new (map S.places_of states.now ++ S.places_of state.now ∷ [])) }
    {
        if states.len() >= self.slots.len() / 2 {
            self.grow(states)?;
        }
        enter(&mut self.slots, hash_of(state.places()), states.len())?;
        Ok(())
    }

    /// Removes all numbers.
    pub fn clear(&mut self) {
        self.slots.fill(0);
    }

    /// Makes twice as many slots, and enters the states. If allocation fails, the slots stay as they are.
    fn grow<S: HasPlaces>(&mut self, states: &[S]) -> Result<(), AllocError>
        ensures { IfOk result (λ _. AreIndexed self.new (map S.places_of states.now)) }
    {
        let slots = self.slots.len().saturating_mul(2);
        self.slots.resize(slots, 0)?;
        self.slots.fill(0);
        for number in 0..states.len() {
            enter(&mut self.slots, hash_of(states[number].places()), number)?;
        }
        Ok(())
    }
}

/// Returns whether the state with the number has these places.
fn has_places<S: HasPlaces>(states: &[S], number: usize, places: &[usize]) -> bool
    ensures { IsTrue result ↔ (slice_get (map S.places_of states.now) number ≡ Some places.now) }
{
    if number >= states.len() {
        return false;
    }
    states[number].places() == places
}

/// Writes the number of a state plus 1 into the first empty slot from the hash on.
///
/// # Errors
///
/// Returns `AllocError` if no slot is empty, or if the number has more than 32 bits.
fn enter(slots: &mut Vec<u32>, hash: usize, number: usize) -> Result<(), AllocError>
    ensures entered { IfOk result (λ _. IsEntered slots.new.items hash (number + 1)) }
    ensures kept { IfOk result (λ _. KeepsEntered slots.old.items slots.new.items) }
{
    if number >= u32::MAX as usize {
        return Err(AllocError);
    }
    for probe in 0..slots.len() {
        let at = slot_index(slots.len(), hash, probe);
        if slots[at] == 0 {
            slots[at] = number as u32 + 1;
            return Ok(());
        }
    }
    Err(AllocError)
}

/// Returns the index of the slot that is looked at after `probe` others.
fn slot_index(slots: usize, hash: usize, probe: usize) -> usize
    requires { 0 < slots }
    ensures index { result ≡ slot_index slots hash probe }
    ensures within { result < slots }
{
    hash.wrapping_add(probe) % slots
}

/// Returns a hash of the places.
fn hash_of(places: &[usize]) -> usize
    ensures { result ≡ hash_of places.now }
{
    let mut hash = 0u64;
    for place in places {
        hash = hash_with(hash, *place);
    }
    (hash >> 40) as usize
}

/// Returns the hash with a place more.
fn hash_with(hash: u64, place: usize) -> u64
    ensures { result ≡ hash_with hash place }
{
    hash.wrapping_add(place as u64)
        .wrapping_mul(0x9E37_79B9_7F4A_7C15)
}

/// Returns the number of slots for `most` states: the least of some powers of two that is at least
/// twice as many.
fn slots_for(most: usize) -> usize {
    if most <= 256 {
        512
    } else if most <= 1_024 {
        2_048
    } else if most <= 2_048 {
        4_096
    } else if most <= 4_096 {
        8_192
    } else if most <= 8_192 {
        16_384
    } else if most <= 16_384 {
        32_768
    } else {
        131_072
    }
}
