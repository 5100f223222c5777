//! Steps of a program by one character, from places that a caller keeps.
ghost use Rattle.std.specs.Prelude.{◌≡◌, ◌+◌, ◌*◌, ◌≤◌, ◌↔◌, IfOk, IsFalse, IsTrue, [], length};
ghost use Rattle.std.specs.List.Sorted.{IsStrictlyIncreasing};
ghost use Rattle.wax_states.specs.Reached.{AreEndsMarked, AreReached, AreWithin, taken_if};
ghost use Rattle.wax_program.specs.{Closed.IsClosed, Threads.AnyAmong};

use crate::listed_sets::ListedSets;
use std::alloc::{AllocError, Global};
use std::marker::Model;
use wax_program::{CompiledProgram, Meter, advance, finish};

/// Room for steps of one program. Contracts see the number of its instructions.
#[derive(Drop)]
pub struct Stepper {
    sets: ListedSets,
}

impl Model for Stepper {
    ghost use Rattle.std.specs.Prelude.{ℕ};
    ghost use Rattle.wax_states.specs.inner.Listed.{HoldsNothing};

    ghost Value = { ℕ };

    ghost view = { λ s. s.sets.size };

    ghost invariant = { λ s. HoldsNothing s.sets };
}

impl Stepper {
    /// Creates a stepper for a program.
    pub fn new(alloc: Global, program: &CompiledProgram) -> Result<Stepper, AllocError>
        ensures { IfOk result (λ s. s ≡ length program.now.0) }
    {
        let sets = ListedSets::new(alloc, program)?;
        Ok(Stepper { sets })
    }

    /// Writes the places to which `places` lead by the character into `reached`, ascending and each once.
    /// Takes time in proportion to the instructions that it reads, each at most once, and the places
    /// that it writes, and to sort those. The meter counts the instructions.
    ///
    /// # Errors
    ///
    /// Returns `AllocError` if the list has too little room and allocation fails.
    pub fn reach(
        &mut self,
        program: &CompiledProgram,
        places: &[usize],
        c: char,
        reached: &mut Vec<usize>,
        meter: &mut Meter,
    ) -> Result<(), AllocError>
        requires { self.old ≡ length program.now.0 }
        ensures same { self.new ≡ self.old }
        ensures reaches { IfOk result (λ _. AreReached program.now.0 c places.now [] reached.new.items) }
        ensures ascending { IfOk result (λ _. IsStrictlyIncreasing reached.new.items) }
        ensures within { IfOk result (λ _. AreWithin program.now.0 reached.new.items) }
        ensures above { meter.new ≤ meter.old + length program.now.0 }
        ensures steady { meter.old ≤ meter.new }
    {
        self.sets.load(places);
        advance(program, c, &mut self.sets, meter);
        let listed = self.sets.list_next(reached);
        self.sets.clear();
        listed?;
        reached.sort_unstable();
        reached.dedup();
        Ok(())
    }

    /// Writes the places to which `places` lead by the character into `reached`, ascending, and
    /// also those in `also`, to which a failure state leads, unless `places` lead to none. Then it
    /// writes nothing and returns `false`. Writes those that aren't due to `also` into `own`. Takes time
    /// in proportion to the instructions that it reads, each at most once, and the places that it
    /// writes. The meter counts the instructions.
    ///
    /// # Errors
    ///
    /// Returns `AllocError` if the lists have too little room and allocation fails.
    pub fn step(
        &mut self,
        program: &CompiledProgram,
        places: &[usize],
        c: char,
        also: &[usize],
        reached: &mut Vec<usize>,
        own: &mut Vec<usize>,
        meter: &mut Meter,
    ) -> Result<bool, AllocError>
        requires { self.old ≡ length program.now.0 }
        ensures same { self.new ≡ self.old }
        ensures reaches { IfOk result (λ leads.
            AreReached program.now.0 c places.now (taken_if leads also.now) reached.new.items) }
        ensures own { IfOk result (λ _. AreReached program.now.0 c places.now [] own.new.items) }
        ensures nowhere { IfOk result (λ leads. IsFalse leads → reached.new.items ≡ []) }
        ensures above { meter.new ≤ meter.old + length program.now.0 }
        ensures steady { meter.old ≤ meter.new }
    {
        self.sets.load(places);
        advance(program, c, &mut self.sets, meter);
        if self.sets.leads_nowhere() {
            self.sets.clear();
            reached.clear();
            own.clear();
            return Ok(false);
        }
        let listed_own = self.sets.list_next(own);
        self.sets.add_next(also);
        let listed = self.sets.list_next(reached);
        self.sets.clear();
        listed_own?;
        listed?;
        reached.sort_unstable();
        Ok(true)
    }

    /// Returns whether a text may end here: whether the program, begun at one of the places,
    /// accepts the empty text. Takes time in proportion to the instructions that it reads, each at
    /// most once. The meter counts them.
    pub fn accepts(
        &mut self,
        program: &CompiledProgram,
        places: &[usize],
        meter: &mut Meter,
    ) -> bool
        requires { self.old ≡ length program.now.0 }
        ensures same { self.new ≡ self.old }
        ensures accepts { IsTrue result ↔ AnyAmong program.now.0 places.now [] }
        ensures above { meter.new ≤ meter.old + length program.now.0 }
        ensures steady { meter.old ≤ meter.new }
    {
        self.sets.load(places);
        let ended = finish(program, &mut self.sets, meter);
        self.sets.clear();
        ended
    }

    /// Writes the numbers whose marks the program accepts, begun at one of the places, ascending. A
    /// text that leads to these places may end here, as one of the patterns with these numbers. Takes
    /// time in proportion to the instructions that it reads, each at most twice, and to sort the
    /// numbers. The meter counts the instructions.
    ///
    /// # Errors
    ///
    /// Returns `AllocError` if the list has too little room and allocation fails.
    pub fn list_ends(
        &mut self,
        program: &CompiledProgram,
        places: &[usize],
        numbers: &mut Vec<usize>,
        meter: &mut Meter,
    ) -> Result<(), AllocError>
        requires size { self.old ≡ length program.now.0 }
        requires closed { IsClosed program.now.0 }
        ensures same { self.new ≡ self.old }
        ensures ends { IfOk result (λ _. AreEndsMarked program.now.0 places.now numbers.new.items) }
        ensures ascending { IfOk result (λ _. IsStrictlyIncreasing numbers.new.items) }
        ensures above { meter.new ≤ meter.old + (2 * length program.now.0 + 1) }
        ensures steady { meter.old ≤ meter.new }
    {
        self.sets.load(places);
        advance(program, '/', &mut self.sets, meter);
        let listed = self.sets.list_ends(program, numbers, meter);
        self.sets.clear();
        listed?;
        numbers.sort_unstable();
        numbers.dedup();
        Ok(())
    }
}
