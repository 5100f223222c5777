//! Characters past ASCII, each followed by its letter.
ghost use Rattle.std.specs.Prelude.{◌+◌, ◌≤◌};
ghost use Rattle.wax_lazy.specs.{Cost.letters_visits, inner.Cached.{KeepsCache, IsCacheOf}};
ghost use Rattle.wax_states.specs.Alike.{AreAlike};

use crate::cache::{Cache, LEAST_PARTED};
use std::alloc::AllocError;
use wax_program::{CompiledProgram, Meter};
use wax_states::Letters;

impl Cache {
    /// Prepares for texts past ASCII: finds the letters of the program, and makes room for the cells of
    /// such characters, unless that was done. Allocates 272 KiB, and reads each instruction of a large
    /// program once. In a small one each character is its own letter.
    pub(crate) fn prepare_wide(
        &mut self,
        program: &CompiledProgram,
        meter: &mut Meter,
    ) -> Result<(), AllocError>
        requires { IsCacheOf program.now.0 self.old }
        ensures kept { KeepsCache program.now.0 self.old self.new }
        ensures above { meter.new ≤ meter.old + letters_visits program.now.0 }
        ensures steady { meter.old ≤ meter.new }
    {
        self.find_letters(program, meter)?;
        self.table.prepare_wide(self.alloc)
    }

    #[tactic(auto, using(crate::proofs::Costs::letters_large))]
    fn find_letters(
        &mut self,
        program: &CompiledProgram,
        meter: &mut Meter,
    ) -> Result<(), AllocError>
        requires { IsCacheOf program.now.0 self.old }
        ensures kept { KeepsCache program.now.0 self.old self.new }
        ensures above { meter.new ≤ meter.old + letters_visits program.now.0 }
        ensures steady { meter.old ≤ meter.new }
    {
        if self.letters.is_some() || program.size() < LEAST_PARTED {
            return Ok(());
        }
        let letters = Letters::new(self.alloc, program, meter)?;
        self.letters = Some(letters);
        Ok(())
    }

    /// Returns the letter of a character, or the character itself if no letters were found yet.
    #[inline]
    pub(super) fn letter(&self, _program: &CompiledProgram, c: char) -> char
        requires { IsCacheOf _program.now.0 self.now }
        ensures { AreAlike _program.now.0 c result }
    {
        match &self.letters {
            Some(letters) => letters.of(c),
            None => c,
        }
    }
}
