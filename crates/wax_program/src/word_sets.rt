//! The sets of places of a run, for programs of fewer than 64 instructions.
ghost use Rattle.std.specs.Prelude.{◌≡◌, ◌<◌};
ghost use Rattle.wax_program.specs.Places.{IsEmpty};

use crate::bits::Word;
use crate::sets::Sets;
use std::marker::Model;
use std::mem;

/// Three sets of one word each. They don't allocate.
#[derive(Drop)]
pub struct WordSets {
    /// The number of instructions of the program. Greater places are never inserted.
    size: usize,
    /// The places that are still to be read here.
    pending: Word,
    /// The places that were read here.
    read: Word,
    /// The places that are to be read at the next position.
    next: Word,
}

impl Model for WordSets {
    ghost use Rattle.wax_program.specs.Threads.{Position, AreSets};

    ghost Value = { Position };

    ghost view = { λ r. record { size = r.size; pending = r.pending; read = r.read; next = r.next } };

    ghost invariant = { λ r. AreSets r.size 0 r.pending r.read r.next };
}

impl WordSets {
    /// Creates empty sets for a program of `size` instructions.
    #[inline]
    pub fn new(size: usize) -> WordSets
        requires { size < 64 }
        ensures size { result.size ≡ size }
        ensures pending { IsEmpty result.pending }
        ensures read { IsEmpty result.read }
        ensures next { IsEmpty result.next }
    {
        WordSets {
            size,
            pending: Word::new(),
            read: Word::new(),
            next: Word::new(),
        }
    }
}

impl Sets for WordSets {
    ghost position = { λ r. r };

    #[inline]
    fn is_done(&self) -> bool {
        self.pending.first() >= self.size
    }

    #[inline]
    fn word(&self) -> Option<u64> {
        Some(self.pending.bits())
    }

    #[inline]
    fn is_at(&self, word: u64) -> bool {
        self.pending.is(word)
    }

    #[inline]
    fn leads_to(&self, word: u64) -> bool {
        self.next.is(word)
    }

    #[inline]
    fn take(&mut self) -> Option<usize> {
        let at = self.pending.first();
        if at >= self.size {
            return None;
        }
        self.pending.remove(at);
        self.read.insert(at);
        Some(at)
    }

    #[inline]
    fn insert(&mut self, at: usize) {
        if at <= self.size && !self.read.contains(at) {
            self.pending.insert(at);
        }
    }

    #[inline]
    fn insert_after(&mut self, at: usize, by: usize) {
        if at <= self.size && by <= self.size - at {
            self.insert(at + by);
        }
    }

    #[inline]
    fn insert_next(&mut self, at: usize) {
        if at <= self.size {
            self.next.insert(at);
        }
    }

    #[inline]
    fn turn(&mut self) {
        mem::swap(&mut self.pending, &mut self.next);
        self.next.clear();
        self.read.clear();
    }

    #[inline]
    fn ends(&self) -> bool {
        self.pending.contains(self.size)
    }
}
