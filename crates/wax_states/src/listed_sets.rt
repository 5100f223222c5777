//! The sets of places of a step, which takes time in proportion to the places that it reaches, and
//! not to the length of the program.
ghost use Rattle.std.specs.Prelude.{◌≡◌, ◌+◌, ◌<◌, ◌≤◌, ◌↔◌, ℕ, [], Contains, IfOk, IsTrue, MatchOption};
ghost use Rattle.std.specs.Prelude.{length};
ghost use Rattle.wax_states.specs.inner.Listed.{AreRead, IsNextUnread, IsJoined, IsLoaded, Lists};
ghost use Rattle.wax_program.specs.{Closed.ReadsEnd, Threads.IsDone, Places.{HoldsPlace, IsEmpty}};

use crate::listed::{ListedSet, remove_all};
use std::alloc::{AllocError, Global};
use std::marker::Model;
use std::mem;
use wax_program::bits::Set;
use wax_program::{CompiledProgram, Meter, Sets, list_ends_among};

/// Three sets of places, two of which are listed. They are allocated once for each stepper.
#[derive(Drop)]
pub struct ListedSets {
    /// The number of instructions of the program. Greater places are never inserted.
    size: usize,
    /// The places that were reached here.
    here: ListedSet,
    /// How many of the listed places have been taken.
    taken: usize,
    /// The places that were read here.
    read: Set,
    /// The places that are to be read at the next position.
    next: ListedSet,
}

impl Model for ListedSets {
    ghost use Rattle.wax_states.specs.inner.Listed.{AreHeld, unread};
    ghost use Rattle.wax_program.specs.Threads.{Position};

    ghost Value = { Position };

    ghost view = { λ r. record {
      size = r.size;
      pending = unread r.here.flags r.read;
      read = r.read;
      next = r.next.flags;
    } };

    ghost invariant = { λ r. AreHeld r.size r.here r.taken r.read r.next };
}

impl ListedSets {
    /// Creates empty sets for a program.
    pub fn new(alloc: Global, program: &CompiledProgram) -> Result<ListedSets, AllocError>
        ensures size { IfOk result (λ r. r.size ≡ length program.now.0) }
        ensures pending { IfOk result (λ r. IsEmpty r.pending) }
        ensures read { IfOk result (λ r. IsEmpty r.read) }
        ensures next { IfOk result (λ r. IsEmpty r.next) }
    {
        let here = ListedSet::new(alloc, program.len())?;
        let read = Set::new(alloc, program.len())?;
        let next = ListedSet::new(alloc, program.len())?;
        Ok(ListedSets {
            size: program.size(),
            here,
            taken: 0,
            read,
            next,
        })
    }

    /// Inserts places that are to be read here. Leaves out places after the program's end.
    pub fn load(&mut self, places: &[usize])
        requires pending { IsEmpty self.old.pending }
        requires read { IsEmpty self.old.read }
        requires next { IsEmpty self.old.next }
        ensures size { self.new.size ≡ self.old.size }
        ensures loaded { IsLoaded places.now self.new.size self.new.pending }
        ensures read { IsEmpty self.new.read }
        ensures next { IsEmpty self.new.next }
    {
        for place in places {
            self.insert(*place);
        }
    }

    /// Inserts places of the next position. Leaves out places after the program's end.
    pub fn add_next(&mut self, places: &[usize])
        ensures size { self.new.size ≡ self.old.size }
        ensures added { IsJoined self.old.next places.now self.new.size self.new.next }
    {
        for place in places {
            self.insert_next(*place);
        }
    }

    /// Writes the numbers of the ends that were read here. Reads one instruction for each place that was
    /// reached.
    ///
    /// # Errors
    ///
    /// Returns `AllocError` if the list has too little room and allocation fails.
    pub fn list_ends(
        &self,
        program: &CompiledProgram,
        numbers: &mut Vec<usize>,
        meter: &mut Meter,
    ) -> Result<(), AllocError>
        requires size { self.now.size ≡ length program.now.0 }
        requires done { IsDone self.now }
        ensures ends { IfOk result (λ _. (number : ℕ) → Contains numbers.new.items number
            ↔ ReadsEnd program.now.0 self.now number) }
        ensures above { meter.new ≤ meter.old + (length program.now.0 + 1) }
        ensures steady { meter.old ≤ meter.new }
    {
        list_ends_among(program, self.here.places(), numbers, meter)
    }

    /// Returns whether no place of the next position was reached.
    pub fn leads_nowhere(&self) -> bool
        ensures { IsTrue result → IsEmpty self.now.next }
    {
        self.next.places().is_empty()
    }

    /// Writes the places of the next position into `places`, in the order in which they were
    /// inserted.
    pub fn list_next(&self, places: &mut Vec<usize>) -> Result<(), AllocError>
        ensures lists { IfOk result (λ _. Lists places.new.items self.now.next) }
        ensures within { IfOk result (λ _. (k : ℕ) → Contains places.new.items k → k ≤ self.now.size) }
    {
        places.clear();
        for place in self.next.places() {
            places.push(*place)?;
        }
        Ok(())
    }

    /// Removes every place.
    pub fn clear(&mut self)
        ensures size { self.new.size ≡ self.old.size }
        ensures pending { IsEmpty self.new.pending }
        ensures read { IsEmpty self.new.read }
        ensures next { IsEmpty self.new.next }
    {
        self.clear_here();
        self.next.clear();
    }

    /// Removes every place of this position.
    fn clear_here(&mut self)
        ensures size { self.new.size ≡ self.old.size }
        ensures pending { IsEmpty self.new.pending }
        ensures read { IsEmpty self.new.read }
        ensures next { self.new.next ≡ self.old.next }
    {
        clear_position(&mut self.here, &mut self.read);
        self.taken = 0;
    }
}

impl Sets for ListedSets {
    ghost position = { λ r. r };

    fn is_done(&self) -> bool {
        first_unread(self.here.places(), self.taken, self.size, &self.read).is_none()
    }

    #[inline]
    fn word(&self) -> Option<u64> {
        None
    }

    #[inline]
    fn is_at(&self, _word: u64) -> bool {
        false
    }

    #[inline]
    fn leads_to(&self, _word: u64) -> bool {
        false
    }

    #[inline]
    fn take(&mut self) -> Option<usize> {
        let (next, at) = first_unread(self.here.places(), self.taken, self.size, &self.read)?;
        self.taken = next;
        self.read.insert(at);
        Some(at)
    }

    #[inline]
    fn insert(&mut self, at: usize) {
        if at <= self.size {
            self.here.insert(at);
        }
    }

    #[inline]
    fn insert_after(&mut self, at: usize, by: usize) {
        if at <= self.size && by <= self.size - at {
            self.insert(at + by);
        }
    }

    #[inline]
    fn insert_next(&mut self, at: usize) {
        if at <= self.size {
            self.next.insert(at);
        }
    }

    fn turn(&mut self) {
        clear_position(&mut self.here, &mut self.read);
        self.taken = 0;
        mem::swap(&mut self.here, &mut self.next);
    }

    #[inline]
    fn ends(&self) -> bool {
        self.here.contains(self.size)
    }
}

/// Removes the places of a position, and those of them that were read.
fn clear_position(here: &mut ListedSet, read: &mut Set)
    requires room { (k : ℕ) → HoldsPlace here.old.flags k → k < length read.old }
    requires among { (k : ℕ) → HoldsPlace read.old k → HoldsPlace here.old.flags k }
    ensures limit { here.new.limit ≡ here.old.limit }
    ensures here { IsEmpty here.new.flags }
    ensures places { here.new.places ≡ [] }
    ensures room { length read.new ≡ length read.old }
    ensures read { IsEmpty read.new }
{
    remove_all(read, here.places());
    here.clear();
}

/// Returns the first place in the list, from the index `from` on, that is below `size` and wasn't
/// read, after the index that follows it.
#[inline]
fn first_unread(places: &[usize], from: usize, size: usize, read: &Set) -> Option<(usize, usize)>
    requires { size < length read.now }
    ensures { MatchOption result (AreRead places.now from (length places.now) size read.now)
        (λ found. IsNextUnread places.now from size read.now found.0 found.1) }
{
    for index in from..places.len() {
        let at = places[index];
        if at < size && !read.contains(at) {
            return Some((index + 1, at));
        }
    }
    None
}
