//! The sets of places of a run, for programs of any length.
ghost use Rattle.std.specs.Prelude.{◌≡◌, IfOk};
ghost use Rattle.wax_program.specs.Places.{IsEmpty};

use crate::bits::Set;
use crate::sets::Sets;
use std::alloc::{AllocError, Global};
use std::marker::Model;
use std::mem;

/// Three sets, each a list of words. They are allocated once for each run.
#[derive(Drop)]
pub struct HeapSets {
    /// The number of instructions of the program. Greater places are never inserted.
    size: usize,
    /// The index of a word before which no place is pending.
    first: usize,
    /// The places that are still to be read here.
    pending: Set,
    /// The places that were read here.
    read: Set,
    /// The places that are to be read at the next position.
    next: Set,
}

impl Model for HeapSets {
    ghost use Rattle.wax_program.specs.Threads.{Position, AreSets};

    ghost Value = { Position };

    ghost view = { λ r. record { size = r.size; pending = r.pending; read = r.read; next = r.next } };

    ghost invariant = { λ r. AreSets r.size r.first r.pending r.read r.next };
}

impl HeapSets {
    /// Creates empty sets for a program of `size` instructions.
    pub fn new(alloc: Global, size: usize) -> Result<HeapSets, AllocError>
        ensures size { IfOk result (λ r. r.size ≡ size) }
        ensures pending { IfOk result (λ r. IsEmpty r.pending) }
        ensures read { IfOk result (λ r. IsEmpty r.read) }
        ensures next { IfOk result (λ r. IsEmpty r.next) }
    {
        Ok(HeapSets {
            size,
            first: 0,
            pending: Set::new(alloc, size)?,
            read: Set::new(alloc, size)?,
            next: Set::new(alloc, size)?,
        })
    }
}

impl Sets for HeapSets {
    ghost position = { λ r. r };

    #[inline]
    fn is_done(&self) -> bool {
        match self.pending.first_from(self.first) {
            Some(at) => at >= self.size,
            None => true,
        }
    }

    #[inline]
    fn take(&mut self) -> Option<usize> {
        let at = self.pending.first_from(self.first)?;
        if at >= self.size {
            return None;
        }
        self.first = at / 64;
        self.pending.remove(at);
        self.read.insert(at);
        Some(at)
    }

    #[inline]
    fn insert(&mut self, at: usize) {
        if at <= self.size && !self.read.contains(at) {
            self.first = self.first.min(at / 64);
            self.pending.insert(at);
        }
    }

    #[inline]
    fn insert_after(&mut self, at: usize, by: usize) {
        if at <= self.size && by <= self.size - at {
            self.insert(at + by);
        }
    }

    #[inline]
    fn insert_next(&mut self, at: usize) {
        if at <= self.size {
            self.next.insert(at);
        }
    }

    #[inline]
    fn turn(&mut self) {
        mem::swap(&mut self.pending, &mut self.next);
        self.next.clear();
        self.read.clear();
        self.first = 0;
    }

    #[inline]
    fn ends(&self) -> bool {
        self.pending.contains(self.size)
    }
}
