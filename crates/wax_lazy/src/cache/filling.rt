//! Filling the cells of states: by steps from a state's own places, and by its failure state.
ghost use Rattle.std.specs.Prelude.{◌≡◌, ◌+◌, ◌*◌, ◌<◌, ◌≤◌, ℕ, List, None, IfOk, IfSome, IsFalse, IsTrue};
ghost use Rattle.std.specs.Prelude.{length};
ghost use Rattle.wax_lazy.specs.Cost.{fill_visits, step_visits};
ghost use Rattle.wax_lazy.specs.inner.Cached.{AreNext, AreParted, AreStepped, GrowsBy, KeepsCache};
ghost use Rattle.wax_lazy.specs.{inner.Cached.KnowsState, inner.Table.own_at};
ghost use Rattle.wax_program.specs.Threads.{AnyAmong};
ghost use Rattle.wax_states.specs.States.{IsDead, HasState, LeadsNext, places_at};

use crate::cache::{Cache, LEAST_PARTED, MOST_PARTS};
use std::alloc::AllocError;
use wax_program::{CompiledProgram, Meter, place_of_all};
use wax_states::{ALL, DEAD, Next, StateId, cell_of};

impl Cache {
    /// Follows a character by a step of the program, and fills its cell. If the cache is full, first
    /// removes all states but the current one.
    #[inline(never)]
    pub(super) fn fill(
        &mut self,
        program: &CompiledProgram,
        state: StateId,
        c: char,
        meter: &mut Meter,
    ) -> Result<Next, AllocError>
        requires here { KnowsState program.now.0 self.old state }
        ensures kept { KeepsCache program.now.0 self.old self.new }
        ensures leads { let places = places_at self.old.table.states.items state in
            IfOk result (LeadsNext program.now.0 self.new.table.states.items places c) }
        ensures above { meter.new ≤ meter.old + fill_visits program.now.0 }
        ensures steady { meter.old ≤ meter.new }
    {
        if self.is_full() {
            self.restart(state)?;
            return self.follow_within(program, 0, c, meter);
        }
        self.follow_within(program, state, c, meter)
    }

    /// Follows a character by its cell, if that is filled, and otherwise as `follow_within` does.
    pub(super) fn follow_cell(
        &mut self,
        program: &CompiledProgram,
        state: StateId,
        c: char,
        meter: &mut Meter,
    ) -> Result<Next, AllocError>
        requires here { KnowsState program.now.0 self.old state }
        requires few { length self.old.table.states.items < 65000 }
        ensures kept { KeepsCache program.now.0 self.old self.new }
        ensures leads { let places = places_at self.old.table.states.items state in
            IfOk result (LeadsNext program.now.0 self.new.table.states.items places c) }
        ensures grows { IfOk result (λ _. GrowsBy 132 self.old self.new) }
        ensures above { meter.new ≤ meter.old + fill_visits program.now.0 }
        ensures steady { meter.old ≤ meter.new }
    {
        if let Some(next) = self.cached_next(state, c) {
            return Ok(next);
        }
        self.follow_within(program, state, c, meter)
    }

    /// Follows a character by a step of the program, and fills its cell. In a large program, does what
    /// `follow` does; if that reads more instructions than the program has, and in a small program, which
    /// has no failure states, steps from all places of the state.
    #[tactic(auto, using(crate::proofs::Costs::fill_large))]
    fn follow_within(
        &mut self,
        program: &CompiledProgram,
        state: StateId,
        c: char,
        meter: &mut Meter,
    ) -> Result<Next, AllocError>
        requires here { KnowsState program.now.0 self.old state }
        requires few { length self.old.table.states.items < 65000 }
        ensures kept { KeepsCache program.now.0 self.old self.new }
        ensures leads { let places = places_at self.old.table.states.items state in
            IfOk result (LeadsNext program.now.0 self.new.table.states.items places c) }
        ensures grows { IfOk result (λ _. GrowsBy 132 self.old self.new) }
        ensures above { meter.new ≤ meter.old + fill_visits program.now.0 }
        ensures steady { meter.old ≤ meter.new }
    {
        if program.size() < LEAST_PARTED {
            return self.follow_all(program, state, c, meter);
        }
        let most = meter.ticks().saturating_add(program.size() as u128);
        let found = self.follow(program, state, c, MOST_PARTS, most, meter)?;
        match found {
            Some(next) => Ok(next),
            None => self.follow_all(program, state, c, meter),
        }
    }

    /// Follows a character by a step of the program, mostly only from the state's own places: where
    /// its failure state leads is found by that state's cell, which is filled in the same way, up to
    /// `depth` times. If its own places lead nowhere, the failure state decides. Returns `None` once the
    /// meter passes `most`: then a step from all places of the first state reads less.
    #[cycle(follow)]
    fn follow(
        &mut self,
        program: &CompiledProgram,
        state: StateId,
        c: char,
        depth: usize,
        most: u128,
        meter: &mut Meter,
    ) -> Result<Option<Next>, AllocError>
        requires here { KnowsState program.now.0 self.old state }
        requires few { length self.old.table.states.items + (2 * depth + 2) < 65533 }
        requires most { meter.old ≤ most }
        ensures kept { KeepsCache program.now.0 self.old self.new }
        ensures leads { let places = places_at self.old.table.states.items state in IfOk result
            (λ found. IfSome found (LeadsNext program.now.0 self.new.table.states.items places c)) }
        ensures grows { IfOk result (λ _. GrowsBy (2 * depth + 2) self.old self.new) }
        ensures above { meter.new ≤ most + step_visits program.now.0 }
        ensures steady { meter.old ≤ meter.new }
    {
        let Some(failure) = self.table.state(state).failure else {
            return Ok(Some(self.follow_all(program, state, c, meter)?));
        };
        if depth == 0 {
            return Ok(Some(self.follow_all(program, state, c, meter)?));
        }
        let found = self.follow_known(program, failure, c, depth - 1, most, meter)?;
        let Some(next) = found else {
            return Ok(None);
        };
        if meter.ticks() > most {
            return Ok(None);
        }
        if let Next::Everything = next {
            self.table.write(state, c, ALL);
            return Ok(Some(next));
        }
        let target = next.state();
        let leads = self.step_own(program, state, c, target, meter)?;
        if !leads {
            self.table.write(state, c, cell_of(next));
            return Ok(Some(next));
        }
        Ok(Some(self.enter(program, state, c, target, meter)?))
    }

    /// Follows a character by its cell, if that is filled, and otherwise as `follow` does.
    #[cycle(follow)]
    fn follow_known(
        &mut self,
        program: &CompiledProgram,
        state: StateId,
        c: char,
        depth: usize,
        most: u128,
        meter: &mut Meter,
    ) -> Result<Option<Next>, AllocError>
        requires here { KnowsState program.now.0 self.old state }
        requires few { length self.old.table.states.items + (2 * depth + 2) < 65533 }
        requires most { meter.old ≤ most }
        ensures kept { KeepsCache program.now.0 self.old self.new }
        ensures leads { let places = places_at self.old.table.states.items state in IfOk result
            (λ found. IfSome found (LeadsNext program.now.0 self.new.table.states.items places c)) }
        ensures grows { IfOk result (λ _. GrowsBy (2 * depth + 2) self.old self.new) }
        ensures above { meter.new ≤ most + step_visits program.now.0 }
        ensures steady { meter.old ≤ meter.new }
    {
        if let Some(next) = self.cached_next(state, c) {
            return Ok(Some(next));
        }
        self.follow(program, state, c, depth, most, meter)
    }

    /// Steps from a state's own places. Writes the places that were reached, and those of the state
    /// `target`, into `self.reached`, and the first of these into `self.others`. Returns `false` if
    /// its own places lead nowhere.
    fn step_own(
        &mut self,
        program: &CompiledProgram,
        state: StateId,
        c: char,
        target: Option<StateId>,
        meter: &mut Meter,
    ) -> Result<bool, AllocError>
        requires here { KnowsState program.now.0 self.old state }
        requires target { IfSome target (HasState self.old.table.states.items) }
        ensures kept { KeepsCache program.now.0 self.old self.new }
        ensures table { self.new.table ≡ self.old.table }
        ensures nowhere { IfOk result (λ leads. IsFalse leads
            → IsDead program.now.0 (own_at self.old.table.states.items state) c) }
        ensures reaches { IfOk result (λ leads. IsTrue leads
            → AreStepped program.now.0 self.old.table.states.items state target c self.new) }
        ensures above { meter.new ≤ meter.old + length program.now.0 }
        ensures steady { meter.old ≤ meter.new }
    {
        let own = &self.table.state(state).own;
        let also = self.table.places_or_none(target);
        let leads = self.stepper.step(
            program,
            own,
            c,
            also,
            &mut self.reached,
            &mut self.others,
            meter,
        )?;
        Ok(leads)
    }

    /// Follows a character by a step of the program from all places of a state.
    fn follow_all(
        &mut self,
        program: &CompiledProgram,
        state: StateId,
        c: char,
        meter: &mut Meter,
    ) -> Result<Next, AllocError>
        requires here { KnowsState program.now.0 self.old state }
        requires few { length self.old.table.states.items + 2 < 65533 }
        ensures kept { KeepsCache program.now.0 self.old self.new }
        ensures leads { let places = places_at self.old.table.states.items state in
            IfOk result (LeadsNext program.now.0 self.new.table.states.items places c) }
        ensures grows { IfOk result (λ _. GrowsBy 2 self.old self.new) }
        ensures above { meter.new ≤ meter.old + step_visits program.now.0 }
        ensures less { length program.now.0 < 256 → meter.new ≤ meter.old + (length program.now.0 + 1) }
        ensures steady { meter.old ≤ meter.new }
    {
        let places = self.table.places(state);
        self.stepper.step(
            program,
            places,
            c,
            &[],
            &mut self.reached,
            &mut self.others,
            meter,
        )?;
        self.enter(program, state, c, None, meter)
    }

    /// Fills the cell of a character in a state, by the places that were reached: those in
    /// `self.others`, and those of the state `target`, if there is one.
    fn enter(
        &mut self,
        program: &CompiledProgram,
        state: StateId,
        c: char,
        target: Option<StateId>,
        meter: &mut Meter,
    ) -> Result<Next, AllocError>
        requires here { KnowsState program.now.0 self.old state }
        requires few { length self.old.table.states.items + 2 < 65533 }
        requires next { AreNext program.now.0 self.old state c }
        requires target { IfSome target (AreParted program.now.0 self.old) }
        ensures kept { KeepsCache program.now.0 self.old self.new }
        ensures leads { let places = places_at self.old.table.states.items state in
            IfOk result (LeadsNext program.now.0 self.new.table.states.items places c) }
        ensures grows { IfOk result (λ _. GrowsBy 2 self.old self.new) }
        ensures above { meter.new ≤ meter.old + (2 * length program.now.0 + 1) }
        ensures less { length program.now.0 < 256 → target ≡ None → meter.new ≤ meter.old + 1 }
        ensures steady { meter.old ≤ meter.new }
    {
        if self.reached.is_empty() {
            self.table.write(state, c, DEAD);
            return Ok(Next::Nothing);
        }
        if takes_all(program, &self.reached, meter) {
            self.table.write(state, c, ALL);
            return Ok(Next::Everything);
        }
        let to = self.intern_parted(program, target, meter)?;
        let next = Next::To(to);
        self.table.write(state, c, cell_of(next));
        Ok(next)
    }
}

/// Returns whether every text is known to be accepted from one of the places. Reads at most one
/// instruction.
fn takes_all(program: &CompiledProgram, places: &[usize], meter: &mut Meter) -> bool
    ensures all { IsTrue result → (s : List ℕ) → AnyAmong program.now.0 places.now s }
    ensures above { meter.new ≤ meter.old + 1 }
    ensures steady { meter.old ≤ meter.new }
{
    let Some(all) = place_of_all(program, meter) else {
        return false;
    };
    for place in places {
        if *place == all {
            return true;
        }
    }
    false
}
