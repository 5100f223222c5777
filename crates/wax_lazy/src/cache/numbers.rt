//! The numbers of the patterns as which a text may end in a state.
ghost use Rattle.std.specs.Prelude.{◌≡◌, ◌+◌, ◌*◌, ◌≤◌, ◌↔◌, ◌∷◌, ℕ, [], Contains, IfOk, Some, length, ◌⊎◌};
ghost use Rattle.wax_lazy.specs.{Cost.numbers_visits, inner.Cached.{KeepsCache, KnowsState, numbers_at}};
ghost use Rattle.wax_lazy.specs.inner.Table.{AreJoined, AreNumbersOf, KeepsStates, known_numbers, own_at};
ghost use Rattle.wax_program.specs.{Closed.IsClosed, Machine.mark, Threads.AnyAmong};
ghost use Rattle.wax_states.specs.States.{HasState, places_at};

use crate::cache::{Cache, LEAST_PARTED, MOST_PARTS};
use crate::numbers::merge;
use std::alloc::AllocError;
use wax_program::{CompiledProgram, Meter};
use wax_states::{State, StateId};

/// The size of the number of a pattern in bytes.
const NUMBER_BYTES: usize = 8;

impl Cache {
    /// Finds the numbers of the patterns that match a text that ends in the state, unless they are
    /// known.
    #[tactic(auto, using(crate::proofs::Costs::numbers_large, crate::proofs::Costs::numbers_small))]
    pub(crate) fn find_numbers(
        &mut self,
        program: &CompiledProgram,
        state: StateId,
        meter: &mut Meter,
    ) -> Result<(), AllocError>
        requires here { KnowsState program.now.0 self.old state }
        requires closed { IsClosed program.now.0 }
        ensures kept { KeepsCache program.now.0 self.old self.new }
        ensures numbers { let places = places_at self.old.table.states.items state in
            IfOk result (λ _. AreNumbersOf program.now.0 places (numbers_at self.new (Some state))) }
        ensures above { meter.new ≤ meter.old + numbers_visits program.now.0 }
        ensures steady { meter.old ≤ meter.new }
    {
        if self.table.state(state).numbers.is_some() {
            return Ok(());
        }
        if program.size() < LEAST_PARTED {
            return self.find_all_numbers(program, state, meter);
        }
        let mut own = Vec::new(self.alloc);
        let rest = self.list_own_numbers(program, state, &mut own, meter)?;
        self.find_all_numbers(program, rest, meter)?;
        if rest == state {
            return Ok(());
        }
        self.join_numbers(program, state, rest, own)
    }

    /// Finds the numbers of a state, unless they are known: by all its places.
    fn find_all_numbers(
        &mut self,
        program: &CompiledProgram,
        state: StateId,
        meter: &mut Meter,
    ) -> Result<(), AllocError>
        requires here { KnowsState program.now.0 self.old state }
        requires closed { IsClosed program.now.0 }
        ensures kept { KeepsCache program.now.0 self.old self.new }
        ensures states { KeepsStates self.old.table.states.items self.new.table.states.items }
        ensures numbers { let places = places_at self.old.table.states.items state in
            IfOk result (λ _. AreNumbersOf program.now.0 places (numbers_at self.new (Some state))) }
        ensures above { meter.new ≤ meter.old + (2 * length program.now.0 + 1) }
        ensures steady { meter.old ≤ meter.new }
    {
        if self.table.state(state).numbers.is_some() {
            return Ok(());
        }
        let places = self.table.places(state);
        self.stepper
            .list_ends(program, places, &mut self.loops, meter)?;
        self.keep_numbers(program, state)
    }

    /// Lists the numbers of the own places of a state, of its failure state, and so on, until one has no
    /// failure state or knows its numbers, or until that has read more instructions than the program has.
    /// Returns that one: the numbers of `state` are those of that one and the listed ones.
    fn list_own_numbers(
        &mut self,
        program: &CompiledProgram,
        state: StateId,
        own: &mut Vec<usize>,
        meter: &mut Meter,
    ) -> Result<StateId, AllocError>
        requires here { KnowsState program.now.0 self.old state }
        requires closed { IsClosed program.now.0 }
        requires none { own.old.items ≡ [] }
        ensures kept { KeepsCache program.now.0 self.old self.new }
        ensures table { self.new.table ≡ self.old.table }
        ensures has_state { IfOk result (HasState self.old.table.states.items) }
        ensures joined { IfOk result
            (AreJoined program.now.0 self.old.table.states.items state own.new.items) }
        ensures above { meter.new ≤ meter.old + (3 * length program.now.0 + 1) }
        ensures steady { meter.old ≤ meter.new }
    {
        let most = meter.ticks().saturating_add(program.size() as u128);
        let mut rest = state;
        for _part in 0..MOST_PARTS {
            let kept = self.table.state(rest);
            let Some(failure) = kept.failure else {
                break;
            };
            if kept.numbers.is_some() || meter.ticks() > most {
                break;
            }
            self.add_own_numbers(program, rest, own, meter)?;
            rest = failure;
        }
        Ok(rest)
    }

    /// Adds the numbers of the own places of a state.
    fn add_own_numbers(
        &mut self,
        program: &CompiledProgram,
        state: StateId,
        own: &mut Vec<usize>,
        meter: &mut Meter,
    ) -> Result<(), AllocError>
        requires here { KnowsState program.now.0 self.old state }
        requires closed { IsClosed program.now.0 }
        ensures kept { KeepsCache program.now.0 self.old self.new }
        ensures table { self.new.table ≡ self.old.table }
        ensures added { IfOk result (λ _. (number : ℕ) → Contains own.new.items number
            ↔ (Contains own.old.items number
            ⊎ AnyAmong program.now.0 (own_at self.old.table.states.items state) (mark number ∷ []))) }
        ensures above { meter.new ≤ meter.old + (2 * length program.now.0 + 1) }
        ensures steady { meter.old ≤ meter.new }
    {
        let places = &self.table.state(state).own;
        self.stepper
            .list_ends(program, places, &mut self.loops, meter)?;
        own.extend_from_slice(&self.loops)?;
        Ok(())
    }

    /// Keeps the numbers of a state: those of the state `rest`, and the listed ones. The program is there
    /// for the contract only.
    fn join_numbers(
        &mut self,
        program: &CompiledProgram,
        state: StateId,
        rest: StateId,
        own: Vec<usize>,
    ) -> Result<(), AllocError>
        requires here { KnowsState program.now.0 self.old state }
        requires has_state { HasState self.old.table.states.items rest }
        requires joined { AreJoined program.now.0 self.old.table.states.items state own.items rest }
        requires known { AreNumbersOf program.now.0 (places_at self.old.table.states.items rest)
            (numbers_at self.old (Some rest)) }
        ensures kept { KeepsCache program.now.0 self.old self.new }
        ensures numbers { let places = places_at self.old.table.states.items state in
            IfOk result (λ _. AreNumbersOf program.now.0 places (numbers_at self.new (Some state))) }
    {
        let mut own = own;
        own.sort_unstable();
        own.dedup();
        let others = numbers_of(self.table.state(rest));
        merge(&own, others, &mut self.loops)?;
        self.keep_numbers(program, state)
    }

    /// Keeps the numbers that were listed for a state. The program is there for the contract only.
    fn keep_numbers(&mut self, _program: &CompiledProgram, state: StateId) -> Result<(), AllocError>
        requires here { KnowsState _program.now.0 self.old state }
        requires listed { AreNumbersOf _program.now.0 (places_at self.old.table.states.items state)
            self.old.loops.items }
        ensures kept { KeepsCache _program.now.0 self.old self.new }
        ensures states { KeepsStates self.old.table.states.items self.new.table.states.items }
        ensures numbers { let places = places_at self.old.table.states.items state in
            IfOk result (λ _. AreNumbersOf _program.now.0 places (numbers_at self.new (Some state))) }
    {
        let numbers = Vec::from_slice(self.alloc, &self.loops)?;
        let bytes = numbers.len().saturating_mul(NUMBER_BYTES);
        self.bytes = self.bytes.saturating_add(bytes);
        self.table.settle_numbers(state, numbers);
        Ok(())
    }

    /// Returns the numbers that were found for a state, if there is one.
    pub(crate) fn numbers(&self, state: Option<StateId>) -> &[usize]
        ensures { numbers_at self.now state ≡ result.now }
    {
        let Some(state) = state else {
            return &[];
        };
        match self.table.states.get(state) {
            Some(state) => numbers_of(state),
            None => &[],
        }
    }
}

/// Returns the numbers that are known of texts that end in a state, or none.
fn numbers_of(state: &State) -> &[usize]
    ensures { known_numbers state.now.numbers ≡ result.now }
{
    match &state.numbers {
        Some(numbers) => numbers,
        None => &[],
    }
}
