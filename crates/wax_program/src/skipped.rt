//! The parts of texts that needn't be read.
ghost use Rattle.std.specs.Prelude.{◌≡◌, ◌-◌, chars, length};
ghost use Rattle.wax_program.specs.{Last.{IsCutBetween, IsLastName, ReadsLast}, Threads.AcceptsAllOrNone};

use crate::machine::CompiledProgram;
use crate::sets::Sets;
use std::marker::Model;

/// A part of a text on which the result doesn't depend. Contracts see how many bytes it has. A meter
/// counts no other bytes, and has to take them: the value can't be dropped.
pub(crate) struct Skipped {
    bytes: usize,
}

impl Model for Skipped {
    ghost use Rattle.std.specs.Prelude.{ℕ};

    ghost Value = { ℕ };

    ghost view = { λ s. s.bytes };
}

impl Skipped {
    /// Skips what is left of a text, where the sets accept everything or nothing.
    #[inline(always)]
    pub(crate) fn rest<R: Sets>(program: &CompiledProgram, sets: &R, left: &str) -> Skipped
        requires { AcceptsAllOrNone program.now.0 (R.position sets.now).pending }
        ensures { result ≡ length left.now }
    {
        let (_, _) = (program, sets);
        Skipped { bytes: left.len() }
    }

    /// Skips what is before the last component of a text, for a program that depends only on that.
    #[inline(always)]
    pub(crate) fn before(program: &CompiledProgram, text: &str, name: &str) -> Skipped
        requires last { ReadsLast program.now.0 }
        requires name { IsLastName (chars text.now) (chars name.now) }
        requires cut { IsCutBetween text.now name.now }
        ensures { result ≡ length text.now - length name.now }
    {
        let _ = program;
        Skipped {
            bytes: text.len() - name.len(),
        }
    }

    /// Returns how many bytes the part has.
    #[inline(always)]
    pub(crate) fn into_bytes(self) -> usize
        ensures { result ≡ self }
    {
        let Skipped { bytes } = self;
        bytes
    }
}
