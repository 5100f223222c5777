//! Counting how often instructions of programs and characters of texts are looked at.
ghost use Rattle.std.specs.Prelude.{◌≡◌, ◌+◌, ◌*◌, ◌≤◌, OnOk, drop, length, min};
ghost use Rattle.wax_lengths.specs.Ends.{MarksBeginnings};
ghost use Rattle.wax_program.specs.Meter.{most_ticks};

use crate::ends::run_ends;
use crate::text::Text;
use std::alloc::{AllocError, Global};
use std::marker::Model;
use wax_program::{CompiledProgram, Meter};

/// The number of instructions that were read, and of characters that were looked at without one. It
/// stays at its greatest number once it reaches it.
#[derive(Drop)]
pub struct Visits {
    meter: Meter,
    characters: u128,
}

impl Model for Visits {
    ghost use Rattle.std.specs.Prelude.{ℕ, ◌+◌, min};
    ghost use Rattle.wax_program.specs.Meter.{most_ticks};

    ghost Value = { ℕ };

    ghost view = { λ v. min (v.meter + v.characters) most_ticks };
}

impl Visits {
    /// Creates a count of 0.
    pub fn new() -> Visits
        ensures { result ≡ 0 }
    {
        Visits {
            meter: Meter::new(),
            characters: 0,
        }
    }

    /// Returns the number of visits so far.
    pub fn count(&self) -> u128
        ensures { result ≡ self.now }
    {
        self.meter.ticks().saturating_add(self.characters)
    }

    /// Counts characters that were looked at.
    #[inline]
    pub(crate) fn add(&mut self, characters: usize)
        ensures counted { self.new ≡ min (self.old + characters) most_ticks }
        ensures above { self.new ≤ self.old + characters }
        ensures steady { self.old ≤ self.new }
    {
        self.characters = self.characters.saturating_add(characters as u128);
    }

    /// Counts each character of a text that was split into parts.
    pub fn add_text(&mut self, text: &Text<'_>)
        ensures counted { self.new ≡ min (self.old + length text.now) most_ticks }
        ensures above { self.new ≤ self.old + length text.now }
        ensures steady { self.old ≤ self.new }
        ensures below { length text.now ≤ self.new }
    {
        self.add(text.len());
    }

    /// Fills `ends` with one flag for each part of the text that begins at `at`, from the empty one
    /// on: whether the program accepts it. Flags that are missing at the end count as `false`.
    pub fn run_ends(
        &mut self,
        alloc: Global,
        program: &CompiledProgram,
        text: &Text<'_>,
        at: usize,
        ends: &mut Vec<bool>,
    ) -> Result<(), AllocError>
        requires { at ≤ length text.now }
        ensures marked { OnOk result (MarksBeginnings program.now.0 (drop at text.now) ends.new.items
            (length (drop at text.now) + 1)) }
        ensures few { OnOk result (at + length ends.new.items ≤ length text.now + 1) }
        ensures above { self.new ≤ self.old + length program.now.0 * (length text.now + 1) }
        ensures steady { self.old ≤ self.new }
    {
        run_ends(alloc, program, text, at, ends, &mut self.meter)
    }
}
