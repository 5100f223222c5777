//! Deciding whether a text may end in a state.
ghost use Rattle.std.specs.Prelude.{◌≡◌, ◌+◌, ◌≤◌, ◌↔◌, [], IsTrue, length};
ghost use Rattle.wax_lazy.specs.{Cost.end_visits, inner.Cached.{KeepsCache, KnowsState}, inner.Table.own_at};
ghost use Rattle.wax_program.specs.Threads.{AnyAmong};
ghost use Rattle.wax_states.specs.States.{places_at};

use crate::cache::{Cache, LEAST_PARTED, MOST_PARTS};
use wax_program::{CompiledProgram, Meter};
use wax_states::StateId;

impl Cache {
    /// Returns whether a text that ends in the state is accepted. Takes a step of the program if no
    /// text has ended there.
    #[inline]
    pub fn accepts(&mut self, program: &CompiledProgram, state: StateId, meter: &mut Meter) -> bool
        requires here { KnowsState program.now.0 self.old state }
        ensures kept { KeepsCache program.now.0 self.old self.new }
        ensures accepts { let places = places_at self.old.table.states.items state in
            IsTrue result ↔ AnyAmong program.now.0 places [] }
        ensures above { meter.new ≤ meter.old + end_visits program.now.0 }
        ensures steady { meter.old ≤ meter.new }
    {
        if let Some(accepts) = self.table.state(state).accepts {
            return accepts;
        }
        let accepts = self.computed(program, state, meter);
        self.table.settle(state, accepts);
        accepts
    }

    /// Computes what `accepts` returns: by the own places of the state, and then by its failure state. Once
    /// that reads more instructions than the program has, goes on from all places of a failure state.
    #[tactic(auto, using(crate::proofs::Costs::end_large, crate::proofs::Costs::end_small))]
    fn computed(&mut self, program: &CompiledProgram, state: StateId, meter: &mut Meter) -> bool
        requires here { KnowsState program.now.0 self.old state }
        ensures kept { KeepsCache program.now.0 self.old self.new }
        ensures table { self.new.table ≡ self.old.table }
        ensures rows { self.new.rows ≡ self.old.rows }
        ensures first { self.new.first ≡ self.old.first }
        ensures accepts { let places = places_at self.old.table.states.items state in
            IsTrue result ↔ AnyAmong program.now.0 places [] }
        ensures above { meter.new ≤ meter.old + end_visits program.now.0 }
        ensures steady { meter.old ≤ meter.new }
    {
        if program.size() < LEAST_PARTED {
            return self
                .stepper
                .accepts(program, self.table.places(state), meter);
        }
        let most = meter.ticks().saturating_add(program.size() as u128);
        let mut here = state;
        for _part in 0..MOST_PARTS {
            let kept = self.table.state(here);
            if let Some(accepts) = kept.accepts {
                return accepts;
            }
            let Some(failure) = kept.failure else {
                break;
            };
            if meter.ticks() > most {
                break;
            }
            if self.own_accept(program, here, meter) {
                return true;
            }
            here = failure;
        }
        self.stepper
            .accepts(program, self.table.places(here), meter)
    }

    /// Returns whether the program, begun at one of the own places of the state, accepts the empty
    /// text.
    fn own_accept(&mut self, program: &CompiledProgram, state: StateId, meter: &mut Meter) -> bool
        requires here { KnowsState program.now.0 self.old state }
        ensures kept { KeepsCache program.now.0 self.old self.new }
        ensures table { self.new.table ≡ self.old.table }
        ensures rows { self.new.rows ≡ self.old.rows }
        ensures first { self.new.first ≡ self.old.first }
        ensures accepts { IsTrue result
            ↔ AnyAmong program.now.0 (own_at self.old.table.states.items state) [] }
        ensures above { meter.new ≤ meter.old + length program.now.0 }
        ensures steady { meter.old ≤ meter.new }
    {
        let own = &self.table.state(state).own;
        let accepts = self.stepper.accepts(program, own, meter);
        accepts
    }
}
