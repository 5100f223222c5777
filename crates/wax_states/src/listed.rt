//! Sets of places that are also listed, so that emptying one takes no longer than filling it.
ghost use Rattle.std.specs.Prelude.{◌≡◌, ◌<◌, ℕ, [], Contains, IfOk, false, length, slice_index_or};
ghost use Rattle.wax_states.specs.inner.Listed.{HasLost, Inserts, Lists};
ghost use Rattle.wax_program.specs.Places.{IsEmpty, member_count};

use std::alloc::{AllocError, Global};
use std::marker::Model;
use wax_program::bits::Set;

/// A set of places below a limit, and a list of them in the order in which they were inserted.
#[derive(Drop)]
pub struct ListedSet {
    limit: usize,
    flags: Set,
    /// Has room for every place below the limit.
    places: Vec<usize>,
}

impl Model for ListedSet {
    ghost use Rattle.std.specs.Prelude.{vec_capacity};
    ghost use Rattle.wax_states.specs.inner.Listed.{IsListing, Listing};

    ghost Value = { Listing };

    ghost view = { λ s. record { limit = s.limit; flags = s.flags; places = s.places.items } };

    ghost invariant = { λ s. IsListing s.limit s.flags s.places.items (vec_capacity s.places) };
}

impl ListedSet {
    /// Creates an empty set of places below `limit`.
    pub fn new(alloc: Global, limit: usize) -> Result<ListedSet, AllocError>
        ensures limit { IfOk result (λ s. s.limit ≡ limit) }
        ensures flags { IfOk result (λ s. IsEmpty s.flags) }
        ensures places { IfOk result (λ s. s.places ≡ []) }
    {
        let flags = Set::new(alloc, limit)?;
        let places = Vec::with_capacity(alloc, limit)?;
        Ok(ListedSet {
            limit,
            flags,
            places,
        })
    }

    /// Returns the places in the order in which they were inserted.
    #[inline]
    pub fn places(&self) -> &[usize]
        ensures places { self.now.places ≡ result.now }
        ensures all { Lists result.now self.now.flags }
        ensures counted { length result.now ≡ member_count self.now.flags }
    {
        &self.places
    }

    /// Returns whether the place is in the set.
    #[inline]
    pub fn contains(&self, at: usize) -> bool
        requires { at < self.now.limit }
        ensures { result ≡ slice_index_or self.now.flags at false }
    {
        self.flags.contains(at)
    }

    /// Inserts a place, and appends it to the list, unless it is there. Doesn't allocate.
    #[inline]
    pub fn insert(&mut self, at: usize)
        requires { at < self.old.limit }
        ensures { Inserts self.old self.new at }
    {
        if self.flags.contains(at) {
            return;
        }
        self.flags.insert(at);
        match self.places.push(at) {
            Ok(()) => {}
            Err(_) => unreachable!(),
        }
    }

    /// Removes every place. Takes time in proportion to their number.
    pub fn clear(&mut self)
        ensures limit { self.new.limit ≡ self.old.limit }
        ensures flags { IsEmpty self.new.flags }
        ensures places { self.new.places ≡ [] }
    {
        remove_all(&mut self.flags, &self.places);
        self.places.clear();
    }
}

/// Removes the places from a set.
pub fn remove_all(set: &mut Set, places: &[usize])
    requires { (k : ℕ) → Contains places.now k → k < length set.old }
    ensures { HasLost set.old places.now set.new }
{
    for place in places {
        set.remove(*place);
    }
}
