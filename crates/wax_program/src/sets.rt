//! The places of a program that a run has reached at a position in the text.
ghost use Rattle.std.specs.Prelude.{◌≡◌, ◌+◌, ◌≤◌, ◌<◌, ◌^◌, ◌↔◌, ℕ, IfSome, IsTrue, MatchOption};
ghost use Rattle.std.specs.Bool.{MatchBool};
ghost use Rattle.wax_program.specs.{Bits.places_of, Places.{HoldsPlace, IsEmpty, member_count}};
ghost use Rattle.wax_program.specs.Threads.{Inserted, InsertedNext, IsDone, Position, Taken};

/// Three sets of places: those that are still to be read at a position in the text, those that were
/// read there, and those of the next position. The place after the last instruction, where the
/// program ends, is never taken.
pub trait Sets {
    // The sets, and the number of instructions of the program.
    ghost position: { Self → Position };

    /// Returns whether no instruction is left to be read here.
    fn is_done(&self) -> bool
        ensures { MatchBool result (IsDone (position self.now))
            ((k : ℕ) × HoldsPlace (position self.now).pending k × (k < (position self.now).size)) };

    /// Returns the set that is to be read here, if it is kept as one word.
    #[inline]
    fn word(&self) -> Option<u64>
        ensures { IfSome result (λ word. (position self.now).pending ≡ places_of word) }
    {
        None
    }

    /// Returns whether the word's set is to be read here, if sets are kept as single words.
    #[inline]
    fn is_at(&self, _word: u64) -> bool
        ensures { IsTrue result → (position self.now).pending ≡ places_of _word }
    {
        false
    }

    /// Returns whether the word's set is to be read at the next position, if sets are kept as single
    /// words.
    #[inline]
    fn leads_to(&self, _word: u64) -> bool
        ensures { IsTrue result → (position self.now).next ≡ places_of _word }
    {
        false
    }

    /// Takes an instruction that is still to be read here, and marks it as read.
    fn take(&mut self) -> Option<usize>
        ensures few { member_count (position self.new).read ≤ (position self.new).size }
        ensures small { (position self.old).size < 2 ^ 64 }
        ensures taken { MatchOption result
            ((position self.new ≡ position self.old) × IsDone (position self.new))
            (λ at. Taken (position self.old) (position self.new) at) };

    /// Inserts a place that is to be read here, unless it was read already.
    fn insert(&mut self, at: usize)
        ensures { Inserted (position self.old) (position self.new) at };

    /// Inserts the place `at + by`, which is to be read here, unless it was read already.
    fn insert_after(&mut self, at: usize, by: usize)
        ensures { Inserted (position self.old) (position self.new) (at + by) };

    /// Inserts a place that is to be read at the next position.
    fn insert_next(&mut self, at: usize)
        ensures { InsertedNext (position self.old) (position self.new) at };

    /// Moves to the next position.
    fn turn(&mut self)
        ensures size { (position self.new).size ≡ (position self.old).size }
        ensures pending { (position self.new).pending ≡ (position self.old).next }
        ensures read { IsEmpty (position self.new).read }
        ensures next { IsEmpty (position self.new).next };

    /// Returns whether the program's end is reached here.
    fn ends(&self) -> bool
        ensures { IsTrue result ↔ HoldsPlace (position self.now).pending (position self.now).size };
}
