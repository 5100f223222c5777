//! Chains of checks, which are followed along a text without states.
ghost use Rattle.std.specs.Prelude.{◌≡◌, ◌+◌, ◌*◌, ◌^◌, ◌<◌, ◌≤◌, ◌∷◌, ℕ, [], List, true, IfOk, IfSome, drop};
ghost use Rattle.std.specs.{Prelude.{length, slice_index}, Str.IsAscii};
ghost use Rattle.wax_lazy.specs.Cost.{char_visits, fill_visits};
ghost use Rattle.wax_lazy.specs.inner.Cached.{GrowsBy, KeepsCache, KnowsState, DecidesLeft, IsCacheOf};
ghost use Rattle.wax_lazy.specs.{inner.Cached.IsChain, inner.Table.IsJoinOf};
ghost use Rattle.wax_program.specs.Checks.{IsCheckAt};
ghost use Rattle.wax_states.specs.States.{HasState, LeadsNext, places_at, places_or_none};

use crate::cache::{Cache, LEAST_PARTED};
use std::alloc::AllocError;
use wax_program::{CompiledProgram, Meter, check_at};
use wax_states::{Next, StateId};

/// A place by itself, from which checks may follow one another, and a state with all other places,
/// if there is one.
#[derive(Clone, Copy)]
pub struct Chain {
    pub place: usize,
    pub failure: Option<StateId>,
}

impl Cache {
    /// Follows the ASCII characters of a text from the byte `index` on: one of them, or more if the
    /// state has one own place, and a chain of checks there takes them. Passing over these needs no
    /// states. Returns where that leads, and up to which byte.
    #[inline(never)]
    pub(crate) fn advance_far(
        &mut self,
        program: &CompiledProgram,
        state: StateId,
        text: &[u8],
        index: usize,
        meter: &mut Meter,
    ) -> Result<(Next, usize), AllocError>
        requires here { KnowsState program.now.0 self.old state }
        requires ascii { IsAscii text.now }
        requires within { index < length text.now }
        ensures kept { KeepsCache program.now.0 self.old self.new }
        ensures further { IfOk result (λ r. (index < r.1) × (r.1 ≤ length text.now)) }
        ensures decides { let places = places_at self.old.table.states.items state in
            IfOk result (λ r. DecidesLeft program.now.0 self.new.table.states.items places
            (drop index text.now) (drop r.1 text.now) r.0) }
        ensures spent { IfOk result (λ r.
            meter.new + char_visits program.now.0 * index ≤ meter.old + char_visits program.now.0 * r.1) }
        ensures most { let all = char_visits program.now.0 * length text.now in
            meter.new + char_visits program.now.0 * index ≤ meter.old + all }
        ensures steady { meter.old ≤ meter.new }
    {
        let c = char::from(text[index]);
        if let Some(chain) = self.chain_taking(program, state, c, meter) {
            return self.follow_chain(program, chain, text, index, meter);
        }
        let next = self.fill(program, state, c, meter)?;
        Ok((next, index + 1))
    }

    /// Returns the chain that begins at the own place of a state, if its first check takes the character,
    /// and there is room for more states. Reads at most this check.
    fn chain_taking(
        &self,
        program: &CompiledProgram,
        state: StateId,
        c: char,
        meter: &mut Meter,
    ) -> Option<Chain>
        requires here { KnowsState program.now.0 self.now state }
        ensures chain { let places = places_at self.now.table.states.items state in
            IfSome result (IsChain program.now.0 self.now.table.states.items places) }
        ensures check { IfSome result (λ chain. IsCheckAt program.now.0 chain.place c true) }
        ensures few { IfSome result (λ _. length self.now.table.states.items < 60000) }
        ensures fits { IfSome result (λ _. length program.now.0 < 2 ^ 64) }
        ensures large { IfSome result (λ _. 256 ≤ length program.now.0) }
        ensures above { meter.new ≤ meter.old + 1 }
        ensures less { length program.now.0 < 256 → meter.new ≡ meter.old }
        ensures steady { meter.old ≤ meter.new }
    {
        if self.is_full() {
            return None;
        }
        let chain = self.chain(program, state)?;
        match check_at(program, chain.place, c, meter) {
            Some(true) => Some(chain),
            _ => None,
        }
    }

    /// Returns the chain that begins at the own place of a state, if it has only one. Returns `None` in
    /// a small program.
    fn chain(&self, program: &CompiledProgram, state: StateId) -> Option<Chain>
        requires here { KnowsState program.now.0 self.now state }
        ensures chain { let places = places_at self.now.table.states.items state in
            IfSome result (IsChain program.now.0 self.now.table.states.items places) }
        ensures large { IfSome result (λ _. 256 ≤ length program.now.0) }
    {
        if program.size() < LEAST_PARTED {
            return None;
        }
        let kept = self.table.state(state);
        match kept.failure {
            Some(failure) => match kept.own.as_slice() {
                [place] => Some(Chain {
                    place: *place,
                    failure: Some(failure),
                }),
                _ => None,
            },
            None => match kept.places.as_slice() {
                [place] => Some(Chain {
                    place: *place,
                    failure: None,
                }),
                _ => None,
            },
        }
    }

    /// Passes over characters of a text from the byte `index` on: the one there, which the first check
    /// of the chain takes, and those that the next checks take. Returns where that leads, and up to
    /// which byte.
    fn follow_chain(
        &mut self,
        program: &CompiledProgram,
        chain: Chain,
        text: &[u8],
        index: usize,
        meter: &mut Meter,
    ) -> Result<(Next, usize), AllocError>
        requires cache { IsCacheOf program.now.0 self.old }
        requires has_state { IfSome chain.failure (HasState self.old.table.states.items) }
        requires few { length self.old.table.states.items < 60000 }
        requires small { length program.now.0 < 2 ^ 64 }
        requires large { 256 ≤ length program.now.0 }
        requires ascii { IsAscii text.now }
        requires within { index < length text.now }
        requires check { IsCheckAt program.now.0 chain.place (slice_index text.now index) true }
        ensures kept { KeepsCache program.now.0 self.old self.new }
        ensures further { IfOk result (λ r. (index < r.1) × (r.1 ≤ length text.now)) }
        ensures decides { (places : List ℕ)
            → IsChain program.now.0 self.old.table.states.items places chain
            → IfOk result (λ r. DecidesLeft program.now.0 self.new.table.states.items places
            (drop index text.now) (drop r.1 text.now) r.0) }
        ensures spent { IfOk result (λ r. meter.new + 1 + char_visits program.now.0 * index
            ≤ meter.old + char_visits program.now.0 * r.1) }
        ensures most { let all = char_visits program.now.0 * length text.now in
            meter.new + 1 + char_visits program.now.0 * index ≤ meter.old + all }
        ensures steady { meter.old ≤ meter.new }
    {
        let mut here = chain;
        let mut end = index;
        loop {
            let next = self.follow_failure(program, here.failure, char::from(text[end]), meter)?;
            end += 1;
            if let Next::Everything = next {
                return Ok((next, end));
            }
            here = Chain {
                place: here.place + 1,
                failure: next.state(),
            };
            if end >= text.len() || self.is_full() {
                break;
            }
            let c = char::from(text[end]);
            match check_at(program, here.place, c, meter) {
                Some(true) => {}
                Some(false) => {
                    let next = self.follow_failure(program, here.failure, c, meter)?;
                    return Ok((next, end + 1));
                }
                None => break,
            }
        }
        let state = self.end_chain(program, here, meter)?;
        Ok((Next::To(state), end))
    }

    /// Follows a character from the failure state of a chain, if there is one.
    fn follow_failure(
        &mut self,
        program: &CompiledProgram,
        failure: Option<StateId>,
        c: char,
        meter: &mut Meter,
    ) -> Result<Next, AllocError>
        requires cache { IsCacheOf program.now.0 self.old }
        requires has_state { IfSome failure (HasState self.old.table.states.items) }
        requires few { length self.old.table.states.items < 60000 }
        ensures kept { KeepsCache program.now.0 self.old self.new }
        ensures leads { let places = places_or_none self.old.table.states.items failure in
            IfOk result (LeadsNext program.now.0 self.new.table.states.items places c) }
        ensures grows { IfOk result (λ _. GrowsBy 132 self.old self.new) }
        ensures above { meter.new ≤ meter.old + fill_visits program.now.0 }
        ensures steady { meter.old ≤ meter.new }
    {
        match failure {
            Some(failure) => self.follow_cell(program, failure, c, meter),
            None => Ok(Next::Nothing),
        }
    }

    /// Finds or adds the state of a chain: its place, and those of its failure state.
    fn end_chain(
        &mut self,
        program: &CompiledProgram,
        chain: Chain,
        meter: &mut Meter,
    ) -> Result<StateId, AllocError>
        requires cache { IsCacheOf program.now.0 self.old }
        requires has_state { IfSome chain.failure (HasState self.old.table.states.items) }
        requires few { length self.old.table.states.items < 65000 }
        ensures kept { KeepsCache program.now.0 self.old self.new }
        ensures has_state { IfOk result (HasState self.new.table.states.items) }
        ensures union { let failure = places_or_none self.old.table.states.items chain.failure in IfOk result
            (λ state. IsJoinOf program.now.0 (places_at self.new.table.states.items state) failure
            (chain.place ∷ [])) }
        ensures above { meter.new ≤ meter.old + 2 * length program.now.0 }
        ensures steady { meter.old ≤ meter.new }
    {
        self.others.clear();
        self.others.push(chain.place)?;
        self.reached.clear();
        self.reached
            .extend_from_slice(self.table.places_or_none(chain.failure))?;
        self.reached.push(chain.place)?;
        self.reached.sort_unstable();
        self.intern_parted(program, chain.failure, meter)
    }
}
