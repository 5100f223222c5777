//! Flags of a program's places, and how they spread to the places that lead to them.
ghost use Rattle.std.specs.Prelude.{◌≡◌, ◌+◌, ◌*◌, ◌<◌, ◌≤◌, ◌⊎◌, ℕ, IfOk, Contains, [], length};
ghost use Rattle.std.specs.Prelude.{option_copied};
ghost use Rattle.wax_program.specs.{Onward.AreOthers, declared.onward.Ahead.Ahead};
ghost use Rattle.wax_program.specs.{inner.Jumps.{AreJumps, IsJump}, inner.Leads.{Holds, flag_count}};
ghost use Rattle.wax_program.specs.inner.Spreads.{AreSpread, HasReached, Spreads};

use crate::jumps::Jumps;
use crate::machine::Meter;
use crate::onward::{Basis, Onward};
use std::alloc::{AllocError, Global};

/// The flags of a program's places, while they are found.
#[derive(Drop)]
pub(crate) struct Spreading {
    pub(crate) onward: Onward,
    /// The places with new flags, which those that lead to them may lack.
    pub(crate) due: Vec<usize>,
}

impl Spreading {
    pub(crate) fn new(alloc: Global, onward: Onward) -> Spreading
        ensures onward { result.onward ≡ onward }
        ensures due { result.due.items ≡ [] }
    {
        Spreading {
            onward,
            due: Vec::new(alloc),
        }
    }

    /// Settles a place, which is due then if that adds a flag.
    fn spread_to(
        &mut self,
        basis: &Basis<'_>,
        at: usize,
        meter: &mut Meter,
    ) -> Result<(), AllocError>
        requires size { self.old.onward.size ≡ length basis.now.program.now.0 }
        requires room { length basis.now.program.now.0 < length basis.now.others.now }
        requires others { AreOthers basis.now.program.now.0 basis.now.others.now }
        requires below { at < length basis.now.program.now.0 }
        requires few { flag_count self.old.onward ≤ 3 * (self.old.onward.size + 1) }
        ensures spreads { let before = Spreads basis.now.program.now.0 (option_copied basis.now.earlier)
            self.old.onward self.old.due.items in
            IfOk result (λ _. before self.new.onward self.new.due.items) }
        ensures fresh { (self.new.onward ≡ self.old.onward)
            ⊎ (flag_count self.old.onward < flag_count self.new.onward) }
        ensures reached { let earlier = option_copied basis.now.earlier in
            HasReached basis.now.program.now.0 earlier self.old.onward self.new.onward at }
        ensures size { self.new.onward.size ≡ self.old.onward.size }
        ensures counted { flag_count self.old.onward ≤ flag_count self.new.onward }
        ensures few { flag_count self.new.onward ≤ 3 * (self.new.onward.size + 1) }
        ensures above { meter.new ≤ meter.old + 1 }
        ensures steady { meter.old ≤ meter.new }
    {
        if self.onward.settle(basis, at, meter) {
            self.due.push(at)?;
        }
        Ok(())
    }

    /// Settles each place, from the last one on.
    pub(crate) fn spread_to_all(
        &mut self,
        basis: &Basis<'_>,
        meter: &mut Meter,
    ) -> Result<(), AllocError>
        requires size { self.old.onward.size ≡ length basis.now.program.now.0 }
        requires room { length basis.now.program.now.0 < length basis.now.others.now }
        requires others { AreOthers basis.now.program.now.0 basis.now.others.now }
        requires few { flag_count self.old.onward ≤ 3 * (self.old.onward.size + 1) }
        ensures spreads { let before = Spreads basis.now.program.now.0 (option_copied basis.now.earlier)
            self.old.onward self.old.due.items in
            IfOk result (λ _. before self.new.onward self.new.due.items) }
        ensures spread { let spread = AreSpread basis.now.program.now.0 (option_copied basis.now.earlier) in
            IfOk result (λ _. spread self.new.onward (Contains self.new.due.items)) }
        ensures size { self.new.onward.size ≡ self.old.onward.size }
        ensures few { flag_count self.new.onward ≤ 3 * (self.new.onward.size + 1) }
        ensures above { meter.new ≤ meter.old + length basis.now.program.now.0 }
        ensures steady { meter.old ≤ meter.new }
    {
        let mut at = basis.program.size();
        while at > 0 {
            at -= 1;
            self.spread_to(basis, at, meter)?;
        }
        Ok(())
    }

    /// Settles the places that lead to one whose flags are new. Reads two instructions, and one more
    /// for each flag that this adds.
    pub(crate) fn spread_from(
        &mut self,
        basis: &Basis<'_>,
        jumps: &Jumps,
        at: usize,
        meter: &mut Meter,
    ) -> Result<(), AllocError>
        requires size { self.old.onward.size ≡ length basis.now.program.now.0 }
        requires room { length basis.now.program.now.0 < length basis.now.others.now }
        requires others { AreOthers basis.now.program.now.0 basis.now.others.now }
        requires jumps { AreJumps basis.now.program.now.0 jumps.now.last.items jumps.now.before.items }
        requires below { at < length basis.now.program.now.0 }
        requires few { flag_count self.old.onward ≤ 3 * (self.old.onward.size + 1) }
        requires spread { let spread = AreSpread basis.now.program.now.0 (option_copied basis.now.earlier) in
            spread self.old.onward (λ k. Contains self.old.due.items k ⊎ (k ≡ at)) }
        ensures spreads { let before = Spreads basis.now.program.now.0 (option_copied basis.now.earlier)
            self.old.onward self.old.due.items in
            IfOk result (λ _. before self.new.onward self.new.due.items) }
        ensures spread { let spread = AreSpread basis.now.program.now.0 (option_copied basis.now.earlier) in
            IfOk result (λ _. spread self.new.onward (Contains self.new.due.items)) }
        ensures size { self.new.onward.size ≡ self.old.onward.size }
        ensures few { flag_count self.new.onward ≤ 3 * (self.new.onward.size + 1) }
        ensures above { meter.new + flag_count self.old.onward
            ≤ meter.old + 2 + flag_count self.new.onward }
        ensures steady { meter.old ≤ meter.new }
    {
        self.spread_to(basis, at, meter)?;
        self.spread_to_previous(basis, at, meter)?;
        self.spread_to_jumps(basis, jumps, at, meter)?;
        Ok(())
    }

    /// Settles the place before this one, if there is one.
    fn spread_to_previous(
        &mut self,
        basis: &Basis<'_>,
        at: usize,
        meter: &mut Meter,
    ) -> Result<(), AllocError>
        requires size { self.old.onward.size ≡ length basis.now.program.now.0 }
        requires room { length basis.now.program.now.0 < length basis.now.others.now }
        requires others { AreOthers basis.now.program.now.0 basis.now.others.now }
        requires below { at < length basis.now.program.now.0 }
        requires few { flag_count self.old.onward ≤ 3 * (self.old.onward.size + 1) }
        ensures spreads { let before = Spreads basis.now.program.now.0 (option_copied basis.now.earlier)
            self.old.onward self.old.due.items in
            IfOk result (λ _. before self.new.onward self.new.due.items) }
        ensures reached { (previous : ℕ) → previous + 1 ≡ at → HasReached basis.now.program.now.0
            (option_copied basis.now.earlier) self.old.onward self.new.onward previous }
        ensures size { self.new.onward.size ≡ self.old.onward.size }
        ensures counted { flag_count self.old.onward ≤ flag_count self.new.onward }
        ensures few { flag_count self.new.onward ≤ 3 * (self.new.onward.size + 1) }
        ensures above { meter.new ≤ meter.old + 1 }
        ensures steady { meter.old ≤ meter.new }
    {
        if at == 0 {
            return Ok(());
        }
        self.spread_to(basis, at - 1, meter)
    }

    /// Settles the forks and jumps that lead to a place and lack one of its flags.
    fn spread_to_jumps(
        &mut self,
        basis: &Basis<'_>,
        jumps: &Jumps,
        at: usize,
        meter: &mut Meter,
    ) -> Result<(), AllocError>
        requires size { self.old.onward.size ≡ length basis.now.program.now.0 }
        requires room { length basis.now.program.now.0 < length basis.now.others.now }
        requires others { AreOthers basis.now.program.now.0 basis.now.others.now }
        requires jumps { AreJumps basis.now.program.now.0 jumps.now.last.items jumps.now.before.items }
        requires below { at < length basis.now.program.now.0 }
        requires few { flag_count self.old.onward ≤ 3 * (self.old.onward.size + 1) }
        ensures spreads { let before = Spreads basis.now.program.now.0 (option_copied basis.now.earlier)
            self.old.onward self.old.due.items in
            IfOk result (λ _. before self.new.onward self.new.due.items) }
        ensures reached { IfOk result (λ _. (m : Ahead) → (jump : ℕ) → IsJump basis.now.program.now.0 jump at
            → Holds self.old.onward m at → Holds self.new.onward m jump) }
        ensures size { self.new.onward.size ≡ self.old.onward.size }
        ensures few { flag_count self.new.onward ≤ 3 * (self.new.onward.size + 1) }
        ensures above { meter.new + flag_count self.old.onward ≤ meter.old + flag_count self.new.onward }
        ensures steady { meter.old ≤ meter.new }
    {
        let mut next = jumps.last[at];
        while let Some(jump) = next {
            self.spread_to_jump(basis, jump, at, meter)?;
            next = jumps.before[jump];
        }
        Ok(())
    }

    /// Settles a fork or jump that leads to a place, if it lacks one of its flags.
    fn spread_to_jump(
        &mut self,
        basis: &Basis<'_>,
        jump: usize,
        at: usize,
        meter: &mut Meter,
    ) -> Result<(), AllocError>
        requires size { self.old.onward.size ≡ length basis.now.program.now.0 }
        requires room { length basis.now.program.now.0 < length basis.now.others.now }
        requires others { AreOthers basis.now.program.now.0 basis.now.others.now }
        requires jump { IsJump basis.now.program.now.0 jump at }
        requires few { flag_count self.old.onward ≤ 3 * (self.old.onward.size + 1) }
        ensures spreads { let before = Spreads basis.now.program.now.0 (option_copied basis.now.earlier)
            self.old.onward self.old.due.items in
            IfOk result (λ _. before self.new.onward self.new.due.items) }
        ensures reached { (m : Ahead) → Holds self.old.onward m at → Holds self.new.onward m jump }
        ensures size { self.new.onward.size ≡ self.old.onward.size }
        ensures few { flag_count self.new.onward ≤ 3 * (self.new.onward.size + 1) }
        ensures above { meter.new + flag_count self.old.onward ≤ meter.old + flag_count self.new.onward }
        ensures steady { meter.old ≤ meter.new }
    {
        if self.onward.has_flags_of(jump, at) {
            return Ok(());
        }
        self.spread_to(basis, jump, meter)
    }
}
