//! Which places of a program lead on to an accepted text with a limit of names.
ghost use Rattle.std.specs.Prelude.{◌≡◌, ◌+◌, ◌*◌, ◌<◌, ◌≤◌, ◌↔◌, ℕ, IfOk, IsTrue, List, Some, length};
ghost use Rattle.wax_program.specs.declared.instruction.Instruction.{Instruction};
ghost use Rattle.wax_program.specs.Onward.{AreFlagsOf, AreLevelsOf, AreOthers, HasLevel};
ghost use Rattle.wax_program.specs.Visits.{onward_visits, flags_visits};
ghost use Rattle.wax_program.specs.inner.Leads.{HoldLast, IsNextLevel};

use crate::bits::Set;
use crate::machine::{CompiledProgram, Meter};
use crate::onward::{Onward, others_of};
use std::alloc::{AllocError, Global};
use std::marker::Model;

/// For each limit of names, the places of a program from which some text with at most so many more
/// names is accepted. Those of a limit are found when they are first asked for. Contracts see the
/// flags.
#[derive(Drop)]
pub struct Levels {
    /// The flags for each limit, from 0 on.
    levels: Vec<Onward>,
    /// True if the last ones hold for each greater limit, too.
    is_complete: bool,
    /// The places whose instruction has a test that a character other than `/` passes, once they are
    /// known.
    others: Option<Set>,
}

impl Model for Levels {
    ghost use Rattle.wax_program.specs.Onward.{LevelFlags};

    ghost Value = { LevelFlags };

    ghost view = { λ l. record { levels = l.levels.items; is_complete = l.is_complete; others = l.others } };
}

impl Levels {
    /// Creates levels of which none is found yet.
    pub fn new(alloc: Global) -> Levels
        ensures { (code : List Instruction) → AreLevelsOf code result }
    {
        Levels {
            levels: Vec::new(alloc),
            is_complete: false,
            others: None,
        }
    }

    /// Finds the flags for this limit, unless they are known: those for each limit up to it that aren't
    /// known, as long as they differ from those before. If memory runs out, what was found before stays
    /// valid.
    pub fn find(
        &mut self,
        alloc: Global,
        program: &CompiledProgram,
        most: usize,
        meter: &mut Meter,
    ) -> Result<(), AllocError>
        requires { AreLevelsOf program.now.0 self.old }
        ensures levels { AreLevelsOf program.now.0 self.new }
        ensures found { IfOk result (λ _. HasLevel self.new most) }
        ensures above { meter.new ≤ meter.old + onward_visits program.now.0 (Some most) }
        ensures known { HasLevel self.old most → meter.new ≡ meter.old }
        ensures steady { meter.old ≤ meter.new }
    {
        if self.has(most) {
            return Ok(());
        }
        let others = match self.others.take() {
            Some(others) => others,
            None => others_of(alloc, program, meter)?,
        };
        let result = self.add_up_to(alloc, program, &others, most, meter);
        self.others = Some(others);
        result
    }

    /// Returns the flags for this limit.
    pub fn level(&self, most: usize) -> &Onward
        requires { HasLevel self.now most }
        ensures { (code : List Instruction) → AreLevelsOf code self.now
            → AreFlagsOf code (Some most) result.now }
    {
        if most < self.levels.len() {
            return &self.levels[most];
        }
        &self.levels[self.levels.len() - 1]
    }

    fn has(&self, most: usize) -> bool
        ensures { IsTrue result ↔ HasLevel self.now most }
    {
        most < self.levels.len() || self.is_complete && !self.levels.is_empty()
    }

    fn add_up_to(
        &mut self,
        alloc: Global,
        program: &CompiledProgram,
        others: &Set,
        most: usize,
        meter: &mut Meter,
    ) -> Result<(), AllocError>
        requires levels { AreLevelsOf program.now.0 self.old }
        requires room { length program.now.0 < length others.now }
        requires others { AreOthers program.now.0 others.now }
        ensures levels { AreLevelsOf program.now.0 self.new }
        ensures found { IfOk result (λ _. HasLevel self.new most) }
        ensures above { meter.new ≤ meter.old + flags_visits program.now.0 * (most + 1) }
        ensures steady { meter.old ≤ meter.new }
    {
        while !self.has(most) {
            self.add(alloc, program, others, meter)?;
        }
        Ok(())
    }

    fn add(
        &mut self,
        alloc: Global,
        program: &CompiledProgram,
        others: &Set,
        meter: &mut Meter,
    ) -> Result<(), AllocError>
        requires levels { AreLevelsOf program.now.0 self.old }
        requires room { length program.now.0 < length others.now }
        requires others { AreOthers program.now.0 others.now }
        ensures levels { AreLevelsOf program.now.0 self.new }
        ensures more { IfOk result (λ _. length self.new.levels ≡ length self.old.levels + 1) }
        ensures above { meter.new ≤ meter.old + flags_visits program.now.0 }
        ensures steady { meter.old ≤ meter.new }
    {
        let next = self.next(alloc, program, others, meter)?;
        let is_last = self.is_last(&next);
        self.levels.push(next)?;
        self.is_complete = is_last;
        Ok(())
    }

    /// Finds the flags of the next level, from those of the last one.
    fn next(
        &self,
        alloc: Global,
        program: &CompiledProgram,
        others: &Set,
        meter: &mut Meter,
    ) -> Result<Onward, AllocError>
        requires levels { AreLevelsOf program.now.0 self.now }
        requires room { length program.now.0 < length others.now }
        requires others { AreOthers program.now.0 others.now }
        ensures level { IfOk result (IsNextLevel program.now.0 self.now.levels) }
        ensures above { meter.new ≤ meter.old + flags_visits program.now.0 }
        ensures steady { meter.old ≤ meter.new }
    {
        match self.levels.last() {
            Some(last) => Onward::after(alloc, program, others, last, meter),
            None => {
                let none = Onward::empty(alloc, program)?;
                Onward::after(alloc, program, others, &none, meter)
            }
        }
    }

    /// Returns whether no place goes on by these flags that doesn't by those of the last level.
    fn is_last(&self, next: &Onward) -> bool
        ensures { IsTrue result → HoldLast self.now.levels next.now }
    {
        match self.levels.last() {
            Some(last) => next.goes_on_within(last),
            None => false,
        }
    }
}
