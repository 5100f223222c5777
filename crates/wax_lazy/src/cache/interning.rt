//! Finding the state of the places that were reached, or adding it.
ghost use Rattle.std.specs.Prelude.{◌≡◌, ◌+◌, ◌*◌, ◌<◌, ◌≤◌, None, IfOk, IfSome, length};
ghost use Rattle.wax_lazy.specs.inner.Cached.{AreParted, AreSameLists, KeepsCache, IsCacheOf, IsInterned};

use crate::cache::{Cache, LEAST_PARTED};
use std::alloc::AllocError;
use std::mem;
use wax_program::{CompiledProgram, Meter, has_loop, part_loops};
use wax_states::{State, StateId};

impl Cache {
    /// Finds or adds the state of the places that were reached. Its failure state is `target`, unless
    /// others of its places are loops. In a large program, it is the state of its loops then.
    pub(super) fn intern_parted(
        &mut self,
        program: &CompiledProgram,
        target: Option<StateId>,
        meter: &mut Meter,
    ) -> Result<StateId, AllocError>
        requires few { length self.old.table.states.items + 2 < 65533 }
        requires cache { IsCacheOf program.now.0 self.old }
        requires target { IfSome target (AreParted program.now.0 self.old) }
        ensures kept { KeepsCache program.now.0 self.old self.new }
        ensures small { IfOk result (λ t. t < 65533) }
        ensures interned { IfOk result (λ t. IsInterned 2 self.old self.new self.old.reached.items t) }
        ensures above { meter.new ≤ meter.old + 2 * length program.now.0 }
        ensures less { length program.now.0 < 256 → target ≡ None → meter.new ≡ meter.old }
        ensures steady { meter.old ≤ meter.new }
    {
        if self.has_no_loop(program, target, meter) {
            return self.intern(program, target);
        }
        if program.size() < LEAST_PARTED {
            return self.intern(program, None);
        }
        // A list with more places than there are instructions isn't worth the time that it would take.
        if self.reached.len() > program.size() {
            return self.intern(program, None);
        }
        part_loops(
            program,
            &self.reached,
            &mut self.loops,
            &mut self.others,
            meter,
        )?;
        if self.loops.is_empty() || self.others.is_empty() {
            return self.intern(program, None);
        }
        mem::swap(&mut self.reached, &mut self.loops);
        let loops = self.intern(program, None);
        mem::swap(&mut self.reached, &mut self.loops);
        let failure = loops?;
        self.intern(program, Some(failure))
    }

    /// Returns whether there is a state `target`, and none of the other places that were reached is a
    /// loop. Returns `false` for a list with more places than there are instructions.
    fn has_no_loop(
        &self,
        program: &CompiledProgram,
        target: Option<StateId>,
        meter: &mut Meter,
    ) -> bool
        ensures above { meter.new ≤ meter.old + length program.now.0 }
        ensures none { target ≡ None → meter.new ≡ meter.old }
        ensures steady { meter.old ≤ meter.new }
    {
        if target.is_none() || self.others.len() > program.size() {
            return false;
        }
        !has_loop(program, &self.others, meter)
    }

    /// Finds the state of the places that were reached, and adds it if it is new, with this failure
    /// state.
    pub(super) fn intern(
        &mut self,
        program: &CompiledProgram,
        failure: Option<StateId>,
    ) -> Result<StateId, AllocError>
        requires few { length self.old.table.states.items < 65533 }
        requires cache { IsCacheOf program.now.0 self.old }
        requires failure { IfSome failure (AreParted program.now.0 self.old) }
        ensures kept { KeepsCache program.now.0 self.old self.new }
        ensures lists { AreSameLists self.old self.new }
        ensures small { IfOk result (λ t. t < 65533) }
        ensures interned { IfOk result (λ t. IsInterned 1 self.old self.new self.old.reached.items t) }
    {
        if let Some(state) = self.table.find(&self.reached) {
            return Ok(state);
        }
        let places = Vec::from_slice(self.alloc, &self.reached)?;
        let own = self.own_with(failure)?;
        self.keep(State {
            places,
            own,
            failure,
            accepts: None,
            numbers: None,
        })
    }

    /// Copies the places that aren't those of the failure state, if there is one.
    fn own_with(&self, failure: Option<StateId>) -> Result<Vec<usize>, AllocError>
        ensures { IfOk result (λ own. IfSome failure (λ _. own.items ≡ self.now.others.items)) }
    {
        match failure {
            Some(_) => Vec::from_slice(self.alloc, &self.others),
            None => Ok(Vec::new(self.alloc)),
        }
    }
}
